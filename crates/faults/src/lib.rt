// Which line of a text is no frame of its kind: for the message where a text is refused. Assumes nothing.
#![tactic(auto)]

ghost use Rattle.std.specs.Prelude.{◌≡◌, ◌<◌, length};
ghost use Rattle.reading.specs.hex_lines.HexLines.{octets_of};
ghost use Rattle.faults.specs.Faults.{told, length_of, length_in, frame_of, fault as fault_of};

use reading::{gathering, hex_lines};

// How many bytes a frame has that begins so, where it is of a kind that both forms have.
fn length_of(f: &[u8]) -> Option<usize>
    requires { 0 < length f.now }
    ensures { result ≡ told (length_of f.now) }
{
    match f[0] {
        0xD1 => Some(12),
        0xD2 => {
            if f.len() < 7 {
                return Some(7);
            }
            Some(7 + usize::from(f[6]))
        }
        0xD3 => Some(5),
        0xD4 => Some(5),
        0xD5 => Some(9),
        0xD6 => Some(3),
        0xD7 => Some(3),
        _ => None,
    }
}

// The same in a text of this form: the second has two kinds more.
fn length_in(form: u8, f: &[u8]) -> Option<usize>
    requires { 0 < length f.now }
    ensures { result ≡ told (length_in form f.now) }
{
    if form != 2 {
        return length_of(f);
    }
    match f[0] {
        0xD8 => Some(2),
        0xD9 => Some(4),
        _ => length_of(f),
    }
}

// Whether these bytes may stand behind k lines.
fn frame_of(form: u8, k: usize, f: &[u8]) -> bool
    ensures { result ≡ frame_of form k f.now }
{
    if k == 0 {
        let opening: &[u8] = &[0xD0, form];
        return f == opening;
    }
    if f.len() == 0 {
        return false;
    }
    Some(f.len()) == length_in(form, f)
}

// Whether a line may stand behind k lines.
fn line_of(form: u8, k: usize, line: &[u8]) -> bool
    ensures { result ≡ frame_of form k (octets_of line.now) }
{
    let mut f = [0u8; 23];
    let n = hex_lines::octets(line, &mut f);
    frame_of(form, k, &f[..n])
}

// The number of the first line that is no frame of its kind in a text of this form, from 1 on.
// The form is a number and no enum of two: it is what the text's first line says, and a narrower type would ask more of callers.
pub fn fault(form: u8, text: &[u8]) -> Option<usize>
    ensures { result ≡ told (fault_of form text.now) }
{
    if text.len() == 0 {
        return Some(1);
    }
    let mut k: usize = 0;
    let mut at: usize = 0;
    // Walked by hand: whether a line has its LF is asked too, which a split at LF no longer tells.
    while at < text.len() {
        let e = at + gathering::end_of(&text[at..]);
        if e == text.len() {
            return Some(k + 1);
        }
        if !line_of(form, k, &text[at..e]) {
            return Some(k + 1);
        }
        at = e + 1;
        k += 1;
    }
    None
}
