//! The lists of a profile.
use crate::profile::Point;
use hp_num::{Items, Text};

/// The frames of a point, as places in the table.
pub type FrameList = Items<u64>;

/// The points of a profile.
pub type Points = Items<Point>;

/// The texts of a table.
pub type Texts = Items<Text>;
