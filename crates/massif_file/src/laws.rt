//! The laws of Massif files, over whole lists of lines, for callers whose contracts speak of lists that they do
//! not read themselves.
ghost use Rattle.std.specs.Prelude.{◌≡◌, ℕ, List, All};
ghost use Rattle.massif_file.specs.declared.profile.Profile.{Profile};
ghost use Rattle.massif_file.specs.AreRead.{AreRead, EndsAs, GiveWritable};
ghost use Rattle.massif_file.specs.IsProfile.{is_profile};
ghost use Rattle.massif_file.specs.Progress.{Progress};
ghost use Rattle.massif_file.specs.StandsFor.{StandsFor};
ghost use Rattle.massif_file.specs.IsWritable.{IsLine, IsWritable};
ghost use Rattle.massif_file.specs.MassifText.{massif_lines};
ghost use Rattle.massif_file.specs.TreeTexts.{StandsByLevels};
ghost use Rattle.massif_file.specs.Trees.{Trees, count_of};

use hp_num::decimal_texts;

/// What the lines of a file are. It does nothing.
pub fn massif_profiles()
    ensures each { (lines : List (List ℕ)) → AreRead lines }

    // Lines that a reader took have no fault before their end.
    ensures stands { (reader : Progress) (lines : List (List ℕ)) → StandsFor reader lines →
        EndsAs reader lines }
{}

/// What is written is read again, and what is read may be written. It does nothing.
pub fn massif_round_trip()
    ensures reads_back { (profile : Profile) → IsWritable profile
        → is_profile (massif_lines profile) profile }
    ensures lines { (profile : Profile) → IsWritable profile → All IsLine (massif_lines profile) }
    ensures writable { (lines : List (List ℕ)) → All IsLine lines → GiveWritable lines }

    // Before each line of a tree stand as many blanks as its level there.
    ensures levels { (tree : Trees) → count_of tree ≡ 1 → StandsByLevels tree }
{
    decimal_texts();
}
