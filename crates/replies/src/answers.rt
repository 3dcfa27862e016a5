// What answers a case: the call's status, what it found, and the hash of what it left.
ghost use Rattle.std.specs.Prelude.{◌≡◌};
ghost use Rattle.canvas.specs.Call.{status_of, count_of};
ghost use Rattle.canvas.specs.Look.{reads, pixel_at};
ghost use Rattle.lbmp.specs.Call.{reading, decoding};
ghost use Rattle.lbmp.specs.Call.{reads as judged_as};
ghost use Rattle.cases.specs.Hash.{hash_of};
ghost use Rattle.replies.specs.Numbers.{int_at};
ghost use Rattle.replies.specs.Answers.{argb_of, told, drawn, drew, looked, decoded_by, bitmap_of, start_of, icon_of, response, respond_to};

use crate::calls::call;
use crate::numbers::{Row, clip_at};
use canvas::{Drawn, Refusal};
use cases::{Answer, Case, Found, GET, LBMP, RES};
use lbmp::{Image, Judged};
use pixels::Canvas;
use res::Icon;
use words::Color;

// What answers a drawing call.
fn counted_answer(op: u64, d: Drawn, hash: u64) -> Answer
    ensures { result ≡ told op (status_of d) (count_of d) hash }
{
    Answer {
        name: op,
        status: canvas::status(d),
        found: Found::Count(canvas::count(d)),
        hash,
    }
}

// Makes a case's drawing call.
fn draw(op: u64, n: Row, v: Canvas, image: &[u8], bytes: &mut [u8]) -> Answer
    ensures { (result, bytes.new) ≡ drew op (drawn op n.words v image.now bytes.old) }
{
    let at = clip_at(op);
    let c = n.color(at - 4);
    let k = n.clip(at);
    let d = call(op, n.words, v, c, k, image, bytes);
    let hash = cases::hash(bytes);
    counted_answer(op, d, hash)
}

// The status of the reading of a pixel, and what it found.
fn seen(p: Result<Option<Color>, Refusal>) -> (u32, Found)
    ensures { (result.0 ≡ (reads p).status) × (result.1 ≡ argb_of (reads p).color) }
{
    match p {
        Ok(Some(c)) => (0, Found::Argb(words::from_color(3, c))),
        Ok(None) => (0, Found::Nothing),
        Err(r) => (r.number(), Found::Nothing),
    }
}

// Reads the pixel that a case names.
fn get(n: Row, v: Canvas, bytes: &[u8]) -> Answer
    ensures { result ≡ looked (pixel_at v bytes.now (int_at n.words 0) (int_at n.words 1)) (hash_of bytes.now) }
{
    let (status, found) = seen(canvas::get_pixel(v, bytes, n.int(0), n.int(1)));
    Answer {
        name: GET,
        status,
        found,
        hash: cases::hash(bytes),
    }
}

// The status of a file's reading, and the image; one without pixels where the file is refused.
#[tactic(auto, unfolding(lbmp::specs::Call::reads))]
fn judged(j: Judged) -> (u32, Image)
    ensures { reading result.0 result.1.width result.1.height result.1.clear ≡ judged_as j }
{
    match j {
        Ok(image) => (0, image),
        Err(r) => (
            r.number(),
            Image {
                width: 0,
                height: 0,
                clear: 0,
            },
        ),
    }
}

// Reads a file into the words lent.
fn decode(file: &[u8], words: &mut [u32]) -> Answer
    ensures { (result, words.new) ≡ decoded_by (decoding file.now words.old) }
{
    let (status, image) = judged(lbmp::decode_lbmp(file, words));
    let n = (image.width as usize * image.height as usize).min(words.len());
    Answer {
        name: LBMP,
        status,
        found: Found::Image {
            w: image.width,
            h: image.height,
            clear: image.clear,
        },
        hash: cases::hash_words(&words[..n]),
    }
}

// Lends as many words as the case says, or all of them.
fn bitmap(room: u32, file: &[u8], words: &mut [u32]) -> Answer
    ensures { (result, words.new) ≡ bitmap_of room file.now words.old }
{
    let n = (room as usize).min(words.len());
    decode(file, &mut words[..n])
}

// Where an icon's part of the file starts; an empty part is at 0.
#[tactic(auto, unfolding(crate::specs::Answers::start_of))]
fn start_of(i: Icon) -> u64
    ensures { result ≡ start_of i.start i.width i.height }
{
    if i.width == 0 || i.height == 0 {
        return 0;
    }
    i.start as u64
}

// Finds a file's first icon.
fn icon(file: &[u8]) -> Answer
    ensures { result ≡ icon_of file.now }
{
    let hash = cases::hash(res::icon_pixels(file));
    match res::decode_res(file) {
        Err(r) => Answer {
            name: RES,
            status: r.number(),
            found: Found::Icon {
                w: 0,
                h: 0,
                start: 0,
            },
            hash,
        },
        Ok(i) => Answer {
            name: RES,
            status: 0,
            found: Found::Icon {
                w: i.width,
                h: i.height,
                start: start_of(i),
            },
            hash,
        },
    }
}

// Makes the call of a case on its bytes, its image or file and the words lent.
pub(crate) fn respond(c: Case, bytes: &mut [u8], image: &[u8], words: &mut [u32]) -> Answer
    ensures { response result bytes.new words.new ≡ respond_to c bytes.old image.now words.old }
{
    let Case {
        name,
        head,
        args,
        ..
    } = c;
    let head = Row { words: head };
    let args = Row { words: args };
    let v = head.canvas(0, 5, head.word(3) == 1);
    match name {
        GET => get(args, v, bytes),
        LBMP => bitmap(args.word(0), image, words),
        RES => icon(image),
        _ => draw(name, args, v, image, bytes),
    }
}
