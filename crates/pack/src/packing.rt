// From the input's bytes to the encoder's calls. The input is read in pieces and never held whole.

use super::lines::{Fault, Line};
use encode::StdEncoder;
use point::Stored;
use std::io;
use stream::Refusal;

// How many bytes are read at once.
const PIECE: usize = 65_536;

// Why not all of the input was packed: a read failed, a line is no point, or its point was refused.
#[derive(Clone, Copy)]
pub(super) enum Stopped {
    Unread(io::Error),
    NoPoint(Fault),
    Refused(Refusal),
}

impl From<io::Error> for Stopped {
    fn from(why: io::Error) -> Stopped {
        Stopped::Unread(why)
    }
}

impl From<Fault> for Stopped {
    fn from(fault: Fault) -> Stopped {
        Stopped::NoPoint(fault)
    }
}

impl From<Refusal> for Stopped {
    fn from(why: Refusal) -> Stopped {
        Stopped::Refused(why)
    }
}

// The encoder with the bytes lent to it, the line that is read, and that line's number.
#[derive(Drop)]
pub(super) struct Packing<'a> {
    buf: &'a mut [u8],
    encoder: StdEncoder,
    line: Line,
    number: u64,
}

impl<'a> Packing<'a> {
    // Before the first line.
    pub(super) fn open(start: u64, buf: &'a mut [u8]) -> Packing<'a> {
        // an encoder whose opening was refused refuses every later call
        let encoder = StdEncoder::open(start, buf).encoder;
        Packing {
            buf,
            encoder,
            line: Line::new(),
            number: 1,
        }
    }

    // The number of the line that is read, or that stopped it.
    pub(super) fn number(&self) -> u64 {
        self.number
    }

    // Offers the point of a whole line; the next line begins.
    fn offer(&mut self, point: Stored) -> Result<(), Refusal> {
        let offered = self.encoder.encode(self.buf, point);
        offered.answer?;
        self.encoder = offered.encoder;
        self.line = Line::new();
        // there are not so many lines that it stops growing
        self.number = self.number.saturating_add(1);
        Ok(())
    }

    fn take_byte(&mut self, b: u8) -> Result<(), Stopped> {
        if b == b'\n' {
            let point = self.line.end()?;
            self.offer(point)?;
        } else {
            self.line = self.line.with(b)?;
        }
        Ok(())
    }

    // The bytes of a piece, up to the first that is wrong.
    fn take_piece(&mut self, piece: &[u8]) -> Result<(), Stopped> {
        for b in piece {
            self.take_byte(*b)?;
        }
        Ok(())
    }

    // The last line, if the input does not end behind a line feed.
    fn take_last(&mut self) -> Result<(), Stopped> {
        if !self.line.is_blank() {
            let point = self.line.last()?;
            self.offer(point)?;
        }
        Ok(())
    }

    // Packs the points of the input, up to its end or to the first line that is refused. A loop has to end, and nothing says that an input does: it
    // counts its turns up to a number that no run reaches.
    pub(super) fn take_all(&mut self, input: &mut impl io::Read) -> Result<(), Stopped> {
        let mut piece = [0u8; PIECE];
        for _ in 0..u64::MAX {
            let n = input.read(&mut piece)?;
            if n == 0 {
                return self.take_last();
            }
            self.take_piece(&piece[..n])?;
        }
        Err(io::Error::other("it does not end").into())
    }

    // Closes the stream and answers its bytes.
    pub(super) fn close(self) -> Result<&'a [u8], Refusal> {
        let Packing { buf, encoder, .. } = self;
        let (_, bytes) = encoder.close(buf).answer?;
        // never more than the buffer has; that is not proved here, and were it wrong, nothing would be written
        Ok(buf.get(..bytes.get()).unwrap_or(&[]))
    }
}
