// A reader of single pixels (§12.1). It holds the lent memory, the words and the window start, so a caller asks for one pixel after
// another and lends only the palette each time. It keeps nothing else and judges every lookup anew: `drawing` does the work.
#![tactic(auto)]

ghost use Rattle.std.specs.Prelude.{◌≡◌};
ghost use Rattle.registers.specs.Refusals.{answer};
ghost use Rattle.drawing.specs.Colour.{contents};
ghost use Rattle.drawing.specs.Drawing.{draw_pixel};
ghost use Rattle.reader.specs.Reading.{reader_of, look_up};

use drawing::Lent;
use drawing::pixel::draw_pixel;
use memory::Screen;
use panel::geometry::Place;
use registers::refusal::Refusal;

// The words with their window start, and the lent memory.
#[derive(Clone, Copy)]
pub struct Reader<'a> {
    pub screen: Screen,
    pub video: &'a [u32],
}

impl<'a> Reader<'a> {
    // A reader over lent memory. Nothing is judged yet.
    pub fn new(screen: Screen, video: &'a [u32]) -> Reader<'a>
        ensures { result ≡ reader_of screen video.entry }
    {
        Reader { screen, video }
    }

    // The colour of the pixel at a place, or the refusal, as `draw_pixel` gives it (§5.6).
    pub fn pixel(self, palette: &[u16], place: Place) -> Result<u32, Refusal>
        ensures { answer result ≡ look_up self.entry palette.now place.row place.column }
    {
        let lent = Lent {
            video: self.video,
            palette,
        };
        draw_pixel(self.screen, lent, place)
    }
}

// One pixel through a reader made for it, for a caller with a single pixel to ask for.
pub fn read_pixel(screen: Screen, lent: Lent, place: Place) -> Result<u32, Refusal>
    ensures { answer result ≡ draw_pixel screen (contents lent.entry) place.row place.column }
{
    Reader::new(screen, lent.video).pixel(lent.palette, place)
}
