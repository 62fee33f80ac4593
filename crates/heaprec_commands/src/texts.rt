//! The texts of the program.
ghost use Rattle.std.specs.Prelude.{◌≡◌};
ghost use Rattle.command_frame.specs.Texts.{texts_of};
ghost use Rattle.heaprec_commands.specs.Texts.{heaprec_texts as texts_of_heaprec};

use command_frame::ProgramTexts;

/// What the program calls itself, and its messages that name no file.
pub fn heaprec_texts() -> ProgramTexts
    ensures { texts_of result ≡ texts_of_heaprec }
{
    ProgramTexts {
        name: "heaprec",
        usage: b"usage: heaprec [--modules=FILE] [--summary] [--check=TRACE] SCRIPT...\n",
        out_of_memory: b"heaprec: out of memory\n",
        write_failed: b"heaprec: write failed\n",
    }
}
