// A dod's field as it was read.

ghost use Rattle.std.specs.Prelude.{◌≡◌, ◌^◌, ◌<◌, ◌≤◌};

// Its number, and how many bits it has: as many as a row may ask for.
#[derive(Clone, Copy)]
pub struct RawDod {
    pub raw: u64,
    pub width: u32,
    ghost some: { 1 ≤ width },
    ghost narrow: { width ≤ 32 },
    ghost inside: { raw < 2 ^ width },
}

impl RawDod {
    ghost use Rattle.std.specs.Int.{w64};
    ghost use Rattle.std.proofs.Common.{of_z};
    ghost use Rattle.layout.specs.Rows.{signed};

    // The field, sign-extended to 64.
    pub(super) fn extend(self) -> u64
        ensures { result ≡ of_z w64 (signed self.width self.raw) }
    {
        let raw = self.raw;
        let half: u64 = 1u64 << (self.width - 1);
        if raw <= half {
            return raw;
        }
        let all: u64 = 1u64 << self.width;
        raw.wrapping_sub(all)
    }
}
