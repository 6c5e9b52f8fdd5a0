// The image of a record: the bytes in which it is kept across a restart (RULES 5.5 to 5.7). Reading asks no more of a byte than that
// it is the one which writing gives: what the bytes say (`decoding`) is judged, written again (`encoding`), and compared. A short image
// is judged under its own limits, and is the first part of what is written.
#![tactic(auto)]

ghost use Rattle.std.specs.Prelude.{◌≡◌};
ghost use Rattle.soundness.specs.Soundness.{sound_under};
ghost use Rattle.image.specs.Keeping.{limits_by, is_image, read_verdict, restored_from, kept_answer, kept_in};

use decoding::decode;
use encoding::{IMAGE, SHORT_IMAGE, encode};
use kinds::{SHORT_CAPACITY, SHORT_CEILING};
use page_record::{Page, fresh};
use requests::{Answer, Refusal};
use rules::counts_under;
use soundness::is_sound;

// A record that was read. No Result: `restored_from` and the theorem demand1_image.fresh say that a refusal gives a fresh one of 0.
#[derive(Clone, Copy)]
pub struct Restored {
    pub answer: Answer,
    pub page: Page,
}

// Whether the page is sound under the limits of an image of this length.
#[tactic(auto, using(crate::proofs::Lengths::sound_other, crate::proofs::Lengths::sound_short))]
fn is_sound_by(page: Page, size: usize) -> bool
    ensures { result ≡ sound_under (limits_by size) page }
{
    let sound = is_sound(page);
    if size != SHORT_IMAGE {
        return sound;
    }
    sound && page.readers.len <= SHORT_CAPACITY && counts_under(page.ref_counts, SHORT_CEILING)
}

// Whether the bytes are the image of this page, short where they are.
fn is_image(page: Page, image: &[u8]) -> bool
    ensures { result ≡ is_image page image.now }
{
    let mut again = [0; IMAGE];
    encode(page, &mut again);
    if image.len() == SHORT_IMAGE {
        return image == &again[..SHORT_IMAGE];
    }
    image == again.as_slice()
}

// Numbers 15 and 16: what is asked of bytes, and of the page that they say.
#[tactic(auto, unfolding(crate::specs::Keeping::known_size, crate::specs::Keeping::read_verdict))]
fn judge(page: Page, image: &[u8]) -> Result<(), Refusal>
    ensures { result ≡ read_verdict page image.now }
{
    let size = image.len();
    if size != SHORT_IMAGE && size != IMAGE {
        return Err(Refusal::WrongSize);
    }
    if !is_sound_by(page, size) || !is_image(page, image) {
        return Err(Refusal::NotAnImage);
    }
    Ok(())
}

// The record of an image.
#[tactic(auto, unfolding(crate::specs::Keeping::restored_from))]
pub fn read(image: &[u8]) -> Restored
    ensures { result ≡ restored_from image.now }
{
    let page = decode(image);
    match judge(page, image) {
        Ok(()) => Restored {
            answer: Answer::Accepted,
            page,
        },
        Err(why) => Restored {
            answer: Answer::Refused(why),
            page: fresh(0),
        },
    }
}

// The image of a record into a lent buffer: a record that isn't sound is refused, and then a buffer that is too short.
pub fn write(page: Page, buffer: &mut [u8]) -> Answer
    ensures answer { result ≡ kept_answer page buffer.old }
    ensures bytes { buffer.new ≡ kept_in page buffer.old }
{
    if !is_sound(page) {
        return Answer::Refused(Refusal::Unsound);
    }
    if buffer.len() < IMAGE {
        return Answer::Refused(Refusal::WrongSize);
    }
    encode(page, buffer);
    Answer::Accepted
}
