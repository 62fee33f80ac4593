//! The points of a list, read as its items come. An item is kept no longer than it takes to read its point.
ghost use Rattle.std.specs.Prelude.{◌≡◌, [], ◌<◌, Ok, Some, IfErr, IsTrue, OnOk, length};
ghost use Rattle.dhat_json.specs.Ahead.{TellsNone, items_ahead, value_ahead};
ghost use Rattle.dhat_json.specs.DataOf.{data_of};
ghost use Rattle.dhat_json.specs.Gathered.{AreSameIn, GainsPoint, GathersNext, HasGathered, Takes, TakesItems};

use crate::fault::DhatFault;
use crate::lists::Points;
use crate::outline::ITEM_DEPTH;
use crate::point::read_point;
use crate::profile::Point;
use crate::shape::Shape;
use crate::table::are_in_table;
use crate::value::next_value;
use json::{Reader, Value};
use std::alloc::Global;

/// The points that came, up to the first fault.
#[derive(Drop)]
pub(crate) struct Gathered {
    /// The shape in which they are read.
    pub(crate) shape: Shape,
    pub(crate) points: Points,
    /// How many items came, up to 2^32 - 1.
    pub(crate) count: u32,
    pub(crate) fault: Option<DhatFault>,
}

impl Gathered {
    /// No points.
    pub(crate) fn new(alloc: Global, shape: Shape) -> Gathered
        ensures none { HasGathered result [] }
        ensures shape { result.shape ≡ shape }
    {
        Gathered {
            shape,
            points: Points::new(alloc),
            count: 0,
            fault: None,
        }
    }

    /// Reads the items of a list, whose opening bracket was read, and its closing one; nothing was gathered before. The
    /// fault of a point is kept, and ends nothing. `NotJson` comes exactly where no such items stand there, unless memory is
    /// wanting; after an error neither points nor reader are of use.
    pub(crate) fn take_items(
        &mut self,
        alloc: Global,
        reader: &mut Reader<'_>,
    ) -> Result<(), DhatFault>
        ensures taken { OnOk result (TakesItems self.old self.new reader.old reader.new) }
        ensures shape { self.new.shape ≡ self.old.shape }
        ensures shorter { OnOk result (length reader.new < length reader.old) }
        ensures fault { IfErr result
            (λ fault. TellsNone fault (items_ahead ITEM_DEPTH reader.old)) }
    {
        'items: while !reader.take_end_array() {
            self.take_next(alloc, reader)?;
        }
        Ok(())
    }

    fn take_next(&mut self, alloc: Global, reader: &mut Reader<'_>) -> Result<(), DhatFault>
        ensures taken { OnOk result (Takes self.old self.new reader.old reader.new) }
        ensures shape { self.new.shape ≡ self.old.shape }
        ensures shorter { OnOk result (length reader.new < length reader.old) }
        ensures fault { IfErr result (λ fault. TellsNone fault (value_ahead ITEM_DEPTH reader.old)) }
    {
        let item = next_value(alloc, reader, ITEM_DEPTH)?;
        self.take(alloc, &item);
        drop(item);
        Ok(())
    }

    /// Reads a point, unless one before it had a fault.
    fn take(&mut self, alloc: Global, item: &Value)
        ensures taken { GathersNext self.old self.new (data_of item.now) }
        ensures shape { self.new.shape ≡ self.old.shape }
    {
        if self.count == u32::MAX {
            return;
        }
        let number = self.count;
        self.count += 1;
        if self.fault.is_some() {
            return;
        }
        match read_point(alloc, item, self.shape, number) {
            Ok(point) => self.push(point),
            Err(fault) => self.fault = Some(fault),
        }
    }

    /// Whether the points are the same in that shape: they were read with the parts that it has, without a fault, and their
    /// frames are in its table.
    pub(crate) fn fits(&self, shape: Shape) -> bool
        ensures { IsTrue result → AreSameIn shape self.now }
    {
        if self.fault.is_some() {
            return false;
        }
        if self.shape.bklt != shape.bklt {
            return false;
        }
        if self.shape.bkacc != shape.bkacc {
            return false;
        }
        are_in_table(self.points.as_slice(), shape.frames)
    }

    fn push(&mut self, point: Point)
        ensures pushed { GainsPoint self.old self.new point }
    {
        if self.points.push(point).is_err() {
            self.fault = Some(DhatFault::NoMemory);
        }
    }
}
