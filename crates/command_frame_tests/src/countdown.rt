//! A maker of a text of equal lines.
ghost use Rattle.std.specs.Prelude.{◌≡◌, ◌+◌, ◌<◌, ◌≤◌, ◌++◌, [], Ok, true, false, IsOk, OnOk, vec_capacity, vec_len};
ghost use Rattle.command_frame_tests.specs.Countdown.{lines_left};

use command_frame::{PieceMaker, TextMaker};
use hp_num::{NoMemory, put_bytes};

/// How many lines are yet to be made.
#[derive(Clone, Copy, Debug)]
pub struct Countdown {
    pub left: u64,
}

impl Countdown {
    /// Appends the next line, if one is left.
    fn put_line(&mut self, output: &mut Vec<u8>) -> Result<bool, NoMemory>
        ensures made { OnOk result (output.new.items ++ lines_left self.new.left
            ≡ output.old.items ++ lines_left self.old.left) }
        ensures fewer { result ≡ Ok true → self.new.left < self.old.left }
        ensures all { result ≡ Ok false → lines_left self.new.left ≡ [] }
        ensures capacity { vec_capacity output.old ≤ vec_capacity output.new }
        ensures room { vec_len output.old + 10 ≤ vec_capacity output.old → IsOk result }
    {
        if self.left == 0 {
            return Ok(false);
        }
        put_bytes(output, b"123456789\n")?;
        self.left -= 1;
        Ok(true)
    }
}

impl TextMaker for Countdown {
    ghost use Rattle.command_frame_tests.specs.Countdown.{lines_left};

    ghost is_sound = { λ _. Unit {0} };

    ghost rest = { λ countdown. lines_left countdown.left };

    ghost pieces = { λ countdown. countdown.left };

    fn piece(&mut self, output: &mut Vec<u8>) -> Result<bool, NoMemory> {
        self.put_line(output)
    }
}

impl PieceMaker for Countdown {
    ghost use Rattle.command_frame_tests.specs.Countdown.{lines_left};

    ghost rest = { λ countdown. lines_left countdown.left };

    ghost pieces = { λ countdown. countdown.left };

    ghost longest = { λ _. 10 };

    fn longest_piece(&self) -> usize {
        10
    }

    fn piece(&mut self, output: &mut Vec<u8>) -> Result<bool, NoMemory> {
        self.put_line(output)
    }
}
