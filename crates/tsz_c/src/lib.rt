// The static library for programs in other languages; the header is include/tsz.h. Each function is the one of that name in crate tsz, since the C
// interface needs it once more with C's calling convention.

#![tactic(auto)]

ghost use Rattle.std.specs.Prelude.{◌≡◌, length};
ghost use Rattle.stream.specs.Bits.{bits};
ghost use Rattle.encode.specs.Lists.{pairs};
ghost use Rattle.tsz.specs.Files.{packed_of, unpacked_of};

// Packs the points of two lists, as many as the shorter has, until one is refused; the stream is closed also then.
#[unsafe(no_mangle)]
pub extern "C" fn tsz_pack(
    start: u64,
    times: &[u64],
    values: &[u64],
    out: &mut [u8],
    said: &mut [u64; 4],
)
    ensures { (said.new, bits out.new) ≡ packed_of 6 start (length out.old) (bits out.old) (pairs times.now values.now) }
{
    tsz::tsz_pack(start, times, values, out, said)
}

// Unpacks a stream into the first entries of two lists, as many as the shorter has; the other entries stay.
#[unsafe(no_mangle)]
pub extern "C" fn tsz_unpack(src: &[u8], times: &mut [u64], values: &mut [u64], said: &mut [u64; 4])
    ensures { (said.new, times.new, values.new) ≡ unpacked_of 6 (length src.now) (bits src.now) times.old values.old }
{
    tsz::tsz_unpack(src, times, values, said)
}
