//! Items by device and part.
ghost use Rattle.std.specs.Prelude.{◌≡◌, ◌+◌, ◌*◌, ◌^◌, ◌<◌, ◌≤◌, ◌&&◌, true, None, [], ◌∷◌, ◌++◌};
ghost use Rattle.std.specs.Prelude.{length, slice_get, IfOk, OnOk};
ghost use Rattle.std.specs.List.{list_any};
ghost use Rattle.irq_base.specs.declared.devices.Part.{Part};
ghost use Rattle.irq_base.specs.declared.devices.Part.TheVariants as parts;
ghost use Rattle.irq_base.specs.declared.numbers.DevNo.{DevNo};
ghost use Rattle.irq_model.specs.Kinds.{same_dev};
ghost use Rattle.irq_model.specs.Lines.{is_device, same_part};
ghost use Rattle.irq_model.specs.Valid.{HasDistinctDevices};
ghost use Rattle.device_table.specs.Rows.{at};
ghost use Rattle.run_scripts.specs.Groups.{group_in, group_of, span_of, spans_from};

use device_table::{DeviceTable, same_part};
use irq_base::{DevNo, DeviceList, ItemList, NoMemory, Part};
use std::alloc::Global;
use std::marker::Model;

/// Where some items stand in a list.
#[derive(Clone, Copy)]
pub struct Span {
    /// The place of the first.
    pub from: u32,
    /// How many they are.
    pub len: u32,
}

/// Where the items of a device stand.
#[derive(Clone, Copy)]
pub struct Spans {
    /// Those of its handler.
    pub handler: Span,
    /// Those of its thread.
    pub thread: Span,
}

/// Items by device and part of the handler. Contracts see one list of them, and where each device's
/// stand in it.
#[derive(Drop)]
pub(crate) struct Groups<T> {
    items: Vec<T>,
    spans: DeviceTable<Spans>,
}

impl<T> Model for Groups<T> {
    ghost use Rattle.run_scripts.specs.Groups.{GroupsSeen, AreWithin};

    ghost Value = { GroupsSeen T };

    ghost view = { λ g. record { items = g.items.items; spans = g.spans } };

    ghost invariant = { λ g. AreWithin g.items.items g.spans };
}

impl<T: Copy> Groups<T> {
    /// The items of the list, by the devices. The only error is `NoMemory`.
    pub(crate) fn new(
        alloc: Global,
        devices: &DeviceList,
        list: &ItemList<(DevNo, Part, T)>,
    ) -> Result<Groups<T>, NoMemory>
        requires distinct { HasDistinctDevices devices.now }
        requires few { length devices.now ≤ 256 }
        requires short { length list.now ≤ 65536 }
        ensures { IfOk result (λ g. (d : DevNo) (part : Part)
            → list_any (is_device d) devices.now ≡ true
            → group_of g d part ≡ group_in list.now d part) }
    {
        let mut items = Vec::new(alloc);
        let mut spans = DeviceTable::empty(alloc);
        for i in 0..devices.len() {
            if let Some(device) = devices.get(i) {
                add_device(&mut items, &mut spans, list, device.dev)?;
            }
        }
        Ok(Groups { items, spans })
    }

    /// All of them, by device and part.
    pub(crate) fn items(&self) -> &[T]
        ensures { result.now ≡ self.now.items }
    {
        self.items.as_slice()
    }

    /// Whether there are none at all.
    pub(crate) fn is_empty(&self) -> bool
        ensures { result ≡ true → self.now.items ≡ [] }
    {
        self.items.is_empty()
    }

    /// The item at the place among those of that part of the device; none from their number on.
    pub(crate) fn get(&self, dev: DevNo, part: Part, place: u32) -> Option<T>
        ensures { result ≡ slice_get (group_of self.now dev part) place }
    {
        if self.items.is_empty() {
            return None;
        }
        let span = self.span(dev, part);
        if place >= span.len {
            return None;
        }
        self.items.get(span.from as usize + place as usize).copied()
    }

    /// How many items that part of the device has.
    pub(crate) fn count(&self, dev: DevNo, part: Part) -> u32
        ensures { result ≡ length (group_of self.now dev part) }
    {
        self.span(dev, part).len
    }

    /// Where the items of that part of the device stand.
    fn span(&self, dev: DevNo, part: Part) -> Span
        ensures span { result ≡ span_of self.now.spans dev part }
        ensures within { result.from + result.len ≤ length self.now.items }
    {
        match (self.spans.get(dev), part) {
            (Some(spans), Part::Primary) => spans.handler,
            (Some(spans), Part::Thread) => spans.thread,
            (None, _) => Span { from: 0, len: 0 },
        }
    }
}

/// Adds a device that isn't there, with its items.
fn add_device<T: Copy>(
    items: &mut Vec<T>,
    spans: &mut DeviceTable<Spans>,
    list: &ItemList<(DevNo, Part, T)>,
    dev: DevNo,
) -> Result<(), NoMemory>
    requires absent { at spans.old dev ≡ None }
    requires room { length items.old.items + 2 * length list.now < 2 ^ 32 }
    ensures items { OnOk result (items.new.items
        ≡ items.old.items ++ (group_in list.now dev parts.Primary
        ++ group_in list.now dev parts.Thread)) }
    ensures spans { OnOk result (spans.new
        ≡ spans.old ++ (dev, spans_from (length items.old.items) list.now dev) ∷ []) }
{
    let handler = push_group(items, list, dev, Part::Primary)?;
    let thread = push_group(items, list, dev, Part::Thread)?;
    spans.add(dev, Spans { handler, thread })
}

/// Adds the items of that part of the device at the end, and says where they stand.
fn push_group<T: Copy>(
    items: &mut Vec<T>,
    list: &ItemList<(DevNo, Part, T)>,
    dev: DevNo,
    part: Part,
) -> Result<Span, NoMemory>
    requires { length items.old.items + length list.now < 2 ^ 32 }
    ensures items { OnOk result (items.new.items
        ≡ items.old.items ++ group_in list.now dev part) }
    ensures span { IfOk result (λ s. s ≡ record {
      from = length items.old.items;
      len = length (group_in list.now dev part);
    }) }
{
    let from = items.len();
    for i in 0..list.len() {
        if let Some(item) = list.get(i) {
            if is_own(dev, part, item.0, item.1) {
                items.push(item.2)?;
            }
        }
    }
    Ok(Span {
        from: from as u32,
        len: (items.len() - from) as u32,
    })
}

/// Whether an item of `owner` and `its_part` is one of that part of the device.
fn is_own(dev: DevNo, part: Part, owner: DevNo, its_part: Part) -> bool
    ensures { result ≡ (same_dev dev owner && same_part part its_part) }
{
    dev == owner && same_part(part, its_part)
}
