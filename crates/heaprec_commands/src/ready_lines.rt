//! The line of a script at the front of bytes that are at hand. Any line may be left to be taken alone.
ghost use Rattle.std.specs.Prelude.{◌≡◌, ◌<◌, length, take, get_or, IfNone, IfSome};
ghost use Rattle.hp_outside.specs.WholeLines.{IsLineText};
ghost use Rattle.heaprec_commands.specs.declared.reader.InputKind.TheVariants.{Script};
ghost use Rattle.heaprec_commands.specs.FrontTaken.{TakesFront};

use record_scripts::Scripts;

/// The most bytes of a line that is taken so, with its line feed.
const LONGEST: usize = 64;

/// Takes the line at the front of the bytes into the script that is open, where it has fewer than 64 bytes and no fault, and
/// answers how many bytes it has with its line feed. Where memory is wanting for it, it is left.
#[inline(always)]
pub fn take_front(scripts: &mut Scripts, ready: &[u8]) -> Option<usize>
    requires { 0 < length scripts.old.scripts }
    ensures taken { IfSome result
        (λ bytes. TakesFront Script scripts.old scripts.new ready.now bytes) }
    ensures untaken { IfNone result (scripts.new ≡ scripts.old) }
    ensures count { length scripts.new.scripts ≡ length scripts.old.scripts }
{
    let end = line_end(ready)?;
    let (line, _) = ready.split_at(end);
    match scripts.line(line) {
        Ok(()) => Some(end + 1),
        Err(_) => None,
    }
}

/// The place of the first line feed, where it is among the first 64 bytes. `None` where there are fewer bytes.
#[inline(always)]
fn line_end(bytes: &[u8]) -> Option<usize>
    ensures one_line { IfSome result (λ end. IsLineText (take end bytes.now)) }
    ensures feed { IfSome result (λ end. get_or bytes.now end 0 ≡ 10) }
    ensures within { IfSome result (λ end. end < length bytes.now) }
    ensures short { IfSome result (λ end. end < 64) }
{
    let front = bytes.first_chunk::<LONGEST>()?;
    let end = feed_in(front)?;
    Some(end)
}

/// The same of 64 bytes.
/// The loop is one over a constant range, which the compiler unrolls.
#[inline(always)]
fn feed_in(front: &[u8; LONGEST]) -> Option<usize>
    ensures one_line { IfSome result (λ end. IsLineText (take end front.now)) }
    ensures feed { IfSome result (λ end. get_or front.now end 0 ≡ 10) }
    ensures short { IfSome result (λ end. end < 64) }
{
    for place in 0..LONGEST {
        if front[place] == b'\n' {
            return Some(place);
        }
    }
    None
}
