//! The figures of a point by their keys, for whoever chooses one of them.
ghost use Rattle.std.specs.Prelude.{◌≡◌, All, is_some};
ghost use Rattle.dhat_json.specs.Figure.{figure_key, figure_of, has_figures};
ghost use Rattle.dhat_json.specs.IsSound.{IsSound};

use crate::key::Key;
use crate::profile::{Dhat, Point};

/// A figure of a point that can be summed over points.
#[derive(Clone, Copy)]
pub enum FigureKey {
    /// Bytes of all blocks.
    Tb,
    /// Number of all blocks.
    Tbk,
    /// Sum of lifetimes.
    Tl,
    /// Bytes that were live at the peak.
    Gb,
    /// Blocks that were live at the peak.
    Gbk,
    /// Bytes that were live at the end.
    Eb,
    /// Blocks that were live at the end.
    Ebk,
    /// Bytes that were read.
    Rb,
    /// Bytes that were written.
    Wb,
}

impl FigureKey {
    /// The figure's key in the file.
    pub fn key(self) -> Key
        ensures key { result ≡ figure_key self }
    {
        match self {
            FigureKey::Tb => Key::Tb,
            FigureKey::Tbk => Key::Tbk,
            FigureKey::Tl => Key::Tl,
            FigureKey::Gb => Key::Gb,
            FigureKey::Gbk => Key::Gbk,
            FigureKey::Eb => Key::Eb,
            FigureKey::Ebk => Key::Ebk,
            FigureKey::Rb => Key::Rb,
            FigureKey::Wb => Key::Wb,
        }
    }
}

impl Point {
    /// The point's figure of this key. `None` exactly where the key's part, `life` or `access`, is absent. It takes
    /// no memory.
    pub fn figure(&self, key: FigureKey) -> Option<u64>
        ensures figure { result ≡ figure_of key self.now }
    {
        match key {
            FigureKey::Tb => Some(self.tb),
            FigureKey::Tbk => Some(self.tbk),
            FigureKey::Tl => Some(self.life?.tl),
            FigureKey::Gb => Some(self.life?.gb),
            FigureKey::Gbk => Some(self.life?.gbk),
            FigureKey::Eb => Some(self.life?.eb),
            FigureKey::Ebk => Some(self.life?.ebk),
            FigureKey::Rb => Some(self.access?.rb),
            FigureKey::Wb => Some(self.access?.wb),
        }
    }
}

impl Dhat {
    /// Whether the points have figures of this key. It takes no memory.
    pub fn has_figures(&self, key: FigureKey) -> bool
        ensures told { result ≡ has_figures key self.now }
        ensures each { IsSound self.now
            → All (λ point. is_some (figure_of key point) ≡ result) self.now.pps }
    {
        match key {
            FigureKey::Tb | FigureKey::Tbk => true,
            FigureKey::Tl | FigureKey::Gb | FigureKey::Gbk | FigureKey::Eb | FigureKey::Ebk => {
                self.bklt
            }
            FigureKey::Rb | FigureKey::Wb => self.bkacc,
        }
    }
}
