// The phase of a pixel (§5.9): the number of the frame, the row and the column, added up, modulo 420.
ghost use Rattle.std.specs.Prelude.{◌≡◌, ◌+◌, ◌%◌, ◌<◌};

#[derive(Clone, Copy)]
pub(crate) struct Phase {
    pub(crate) number: usize,
    ghost below: { number < 420 },
}

// The sum of frame and row. It may pass 32 bits.
fn frame_and_row(frame: u32, row: u32) -> u64
    ensures { result ≡ frame + row }
{
    frame as u64 + row as u64
}

impl Phase {
    // That of a row's first column.
    pub(crate) fn new(frame: u32, row: u32) -> Phase
        ensures { result.number ≡ (frame + row) % 420 }
    {
        Phase {
            number: (frame_and_row(frame, row) % 420) as usize,
        }
    }

    // Eight columns on.
    pub(crate) fn eight_on(self) -> Phase
        ensures { result.number ≡ (self.number + 8) % 420 }
    {
        let number = if self.number < 412 {
            self.number + 8
        } else {
            self.number - 412
        };
        Phase { number }
    }
}
