//! The page of a Massif file's profile. How such a file is read is no part of it.
ghost use Rattle.std.specs.Prelude.{◌≡◌, ◌++◌, IfOk, OnOk, map, string_bytes};
ghost use Rattle.profile_reports.specs.PageReport.{before_word, page_verdict, shown_words};

use crate::massif_file_fault::MassifFileFault;
use crate::massif_file_report::MassifFileReport;
use crate::page_size::PageSize;
use command_frame::LineRefusal;
use hp_num::{NoMemory, Text, put_bytes};
use massif_file::Profile;
use ms_print::{PageOptions, put_page};
use std::alloc::Global;

/// Makes the page of a profile.
#[derive(Clone, Copy)]
pub struct PageReport<'a> {
    pub size: PageSize,
    /// The words behind the command.
    pub words: &'a [String],
}

impl MassifFileReport for PageReport<'_> {
    ghost verdict = { λ page.
        page_verdict page.size.threshold page.size.x page.size.y
        (shown_words (map string_bytes page.words.now)) };

    fn report(
        &self,
        alloc: Global,
        profile: &Profile,
    ) -> Result<Vec<u8>, LineRefusal<MassifFileFault>> {
        let options = PageOptions {
            threshold: self.size.threshold,
            x: self.size.x,
            y: self.size.y,
            words: shown_words(alloc, self.words)?,
        };
        let mut page = Vec::new(alloc);
        put_page(&options, profile, &mut page)?;
        Ok(page)
    }
}

/// The words with a blank between each two.
#[tactic(auto, unfolding(crate::specs::PageReport::shown_words))]
fn shown_words(alloc: Global, words: &[String]) -> Result<Text, NoMemory>
    ensures { IfOk result (λ text. text ≡ shown_words (map string_bytes words.now)) }
{
    let mut text = Vec::new(alloc);
    'each_word: for place in 0..words.len() {
        put_word(place, words[place].as_str(), &mut text)?;
    }
    Ok(Text::from(text))
}

/// Appends the word at this place, and a blank before it unless it is the first.
fn put_word(place: usize, word: &str, text: &mut Vec<u8>) -> Result<(), NoMemory>
    ensures { OnOk result (text.new.items ≡ text.old.items ++ (before_word place ++ word.now)) }
{
    if place == 0 {
        return put_bytes(text, word.as_bytes());
    }
    put_bytes(text, b" ")?;
    put_bytes(text, word.as_bytes())
}
