//! A profile's text whose points come one by one, so that they need not be held at once.
ghost use Rattle.std.specs.Prelude.{◌≡◌, [], Ok, Some, IfOk, OnOk, string_bytes};
ghost use Rattle.dhat_json.specs.declared.profile.Dhat.{Dhat};
ghost use Rattle.dhat_json.specs.Begun.{with_points};
ghost use Rattle.dhat_json.specs.DhatValue.{dhat_text, dhat_value};
ghost use Rattle.dhat_json.specs.Document.{document_of, value_of};
ghost use Rattle.dhat_json.specs.IsSound.{HasTexts, IsSound};
ghost use Rattle.dhat_json.specs.PointWriter.{HasWritten, WritesPoint};

use crate::lists::{Points, Texts};
use crate::profile::{Dhat, Point};
use crate::writer::{begun, ended, put_point};
use hp_num::NoMemory;
use json::Writer;
use std::alloc::Global;

/// The text of a profile so far: all that stands before its points, and the points that were put.
#[derive(Drop)]
pub struct PointWriter {
    pub(crate) out: Writer,
    pub(crate) head: Dhat,
}

impl PointWriter {
    /// Begins the text of this profile with none of its points, or answers `NoMemory`. Points and table are let go.
    pub fn new(alloc: Global, dhat: Dhat) -> Result<PointWriter, NoMemory>
        requires texts { HasTexts dhat }
        ensures begun { IfOk result (λ writer. HasWritten writer (with_points dhat [])) }
    {
        match begun(alloc, &dhat) {
            Ok(out) => {
                let mut head = dhat;
                head.pps = Points::new(alloc);
                head.ftbl = Texts::new(alloc);
                Ok(PointWriter { out, head })
            }
            Err(error) => {
                drop(dhat);
                Err(error)
            }
        }
    }

    /// Puts a point behind the others. After `NoMemory` the writer is of no use.
    pub fn put(&mut self, point: &Point) -> Result<(), NoMemory>
        ensures more { OnOk result (WritesPoint self.old self.new point.now) }
    {
        put_point(&mut self.out, point)
    }

    /// The text of the profile with the points that were put, as `profile_text` writes it: read again it is the same profile,
    /// where that profile is sound. Or `NoMemory`. No `put` may have answered `NoMemory` before.
    pub fn finish(self) -> Result<String, NoMemory>
        requires begun { (dhat : Dhat) × HasWritten self dhat }
        ensures text { IfOk result (λ text. (dhat : Dhat) → HasWritten self dhat
            → string_bytes text ≡ dhat_text dhat) }
        ensures value { IfOk result (λ text. (dhat : Dhat) → HasWritten self dhat
            → value_of (string_bytes text) ≡ Some (dhat_value dhat)) }
        ensures reads_back { IfOk result (λ text. (dhat : Dhat) → HasWritten self dhat
            → IsSound dhat → document_of (string_bytes text) ≡ Ok dhat) }
    {
        let PointWriter { out, head } = self;
        let text = ended(out, &head);
        drop(head);
        text
    }
}
