// The reply to a line.
ghost use Rattle.std.specs.Prelude.{◌≡◌};
ghost use Rattle.replies.specs.Replies.{without_return, text_of, refused, replied};
ghost use Rattle.replies.specs.Replies.{reply as left};

use crate::answers::respond;

// The longest line that is read; what is longer is bad.
const LONGEST: usize = 65536;

// A line without a CR at its end.
fn without_return(line: &[u8]) -> &[u8]
    ensures { result.now ≡ without_return line.now }
{
    line.strip_suffix(b"\r").unwrap_or(line)
}

// What is read of a line.
fn text_of(line: &[u8]) -> &[u8]
    ensures { result.now ≡ text_of line.now }
{
    let text = without_return(line);
    if LONGEST < text.len() {
        return &text[..0];
    }
    text
}

// Answers a line that can't be read.
fn refuse(out: &mut [u8]) -> usize
    ensures { (result, out.new) ≡ refused out.old }
{
    if out.len() < 144 {
        return 0;
    }
    out[..4].copy_from_slice(b"bad\n");
    4
}

// Makes the call of a line, and puts the line that answers it at the start of out; answers its length. With less than
// 144 bytes in out no line is put there, and the length is 0.
pub fn reply(
    line: &[u8],
    bytes: &mut [u8],
    image: &mut [u8],
    words: &mut [u32],
    out: &mut [u8],
) -> usize
    ensures { left (result, out.new) bytes.new image.new words.new ≡ replied line.now bytes.old image.old words.old out.old }
{
    let Some(case) = cases::read(text_of(line), bytes, image) else {
        return refuse(out);
    };
    let answer = respond(case, &mut bytes[..case.bytes], &image[..case.image], words);
    cases::write(answer, out)
}
