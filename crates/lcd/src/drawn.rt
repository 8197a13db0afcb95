// What is drawn of words in a slice (§5.6, §5.10): fewer than nine are refused by 10 before all else (§9.3).
ghost use Rattle.std.specs.Prelude.{◌≡◌};
ghost use Rattle.drawing.specs.Colour.{contents};
ghost use Rattle.laws.specs.Answers.{mapped, leaves};
ghost use Rattle.registers.specs.Refusals.{answer, code};
ghost use Rattle.registers.specs.Loading.{load};
ghost use Rattle.memory.specs.Memory.{screen};
ghost use Rattle.lcd.specs.Calls.{draw_row, draw_picture, draw_stn};

use drawing::Lent;
use drawing::picture::draw_picture;
use drawing::row::draw_row;
use memory::Screen;
use registers::load;
use registers::refusal::Refusal;
use stn::draw_stn;

// The words with their window start.
pub(crate) fn screen_of(words: &[u32], window_start: u32) -> Result<Screen, Refusal>
    ensures { answer result ≡ mapped (λ w. screen w window_start) (load words.now) }
{
    let words = load(words)?;
    Ok(Screen {
        words,
        window_start,
    })
}

pub(crate) fn row_of(
    words: &[u32],
    window_start: u32,
    lent: Lent,
    row: u32,
    out: &mut [u32],
) -> Result<(), Refusal>
    ensures { leaves (code result) out.new ≡ draw_row words.now window_start (contents lent.entry) row out.old }
{
    let s = screen_of(words, window_start)?;
    draw_row(s, lent, row, out)
}

pub(crate) fn picture_of(
    words: &[u32],
    window_start: u32,
    lent: Lent,
    picture: &mut [u32],
) -> Result<(), Refusal>
    ensures { leaves (code result) picture.new ≡ draw_picture words.now window_start (contents lent.entry) picture.old }
{
    let s = screen_of(words, window_start)?;
    draw_picture(s, lent, picture)
}

pub(crate) fn stn_frame_of(
    words: &[u32],
    window_start: u32,
    video: &[u32],
    frame: u32,
    out: &mut [u8],
) -> Result<(), Refusal>
    ensures { leaves (code result) out.new ≡ draw_stn words.now window_start video.now frame out.old }
{
    let s = screen_of(words, window_start)?;
    draw_stn(s, video, frame, out)
}
