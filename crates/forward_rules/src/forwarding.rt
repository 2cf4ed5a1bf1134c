//! What goes over from the files that are read to one that is written.

ghost use Rattle.std.specs.Prelude.{◌≡◌, ◌<◌, ◌&&◌, ◌++◌, ◌∷◌, [], List, IfOk, OnOk, OnErr};
ghost use Rattle.std.specs.Int.{w64};
ghost use Rattle.forward_rules.specs.declared.options.LasOpts.{LasOpts};
ghost use Rattle.forward_rules.specs.Forwarded.{ReadFile, read_file, form_of, flag_on, given_on};
ghost use Rattle.forward_rules.specs.Values.{default_values, format_in, scale_on, offset_on};
ghost use Rattle.forward_rules.specs.States.{agreeing, agreeing_scale, agreeing_offset, forwarding_of, picked, picked_scales, picked_offsets, picked_form, kept, started, agreed};

use crate::fields::Fields;
use crate::given::GivenValues;
use crate::lists::without_extra_bytes;
use crate::values::{HeaderValues, offset_on, same_format, same_scale, scale_on};
use crate::{LasForm, LasOpts};
use cloud_points::FieldList;
use decimal_coords::Scale;
use las_header::{Format, Header, takes_format};
use las_vlr::VlrList;
use std::alloc::{AllocError, Global};

/// Version Minor of a file that nothing is said of.
const MINOR: u8 = 4;

/// The options of a writer, and what it may take over from the files that were read so far. It is begun with the options,
/// gets each file by `add`, and is ended by `form`.
#[derive(Drop)]
pub struct Forwarding {
    given: GivenValues,
    /// The fields that are asked for, and in which all files agree so far.
    goes: Fields,
    begun: bool,
    /// The values of the first file, or the defaults.
    first: HeaderValues,
    /// The lists of the first file, where they are asked for.
    vlrs: VlrList,
    evlrs: VlrList,
}

/// Whether the scale of an axis still goes over.
fn agreeing_scale(goes: &Fields, first: &HeaderValues, values: &HeaderValues, axis: usize) -> bool
    requires { axis < 3 }
    ensures { result ≡ agreeing_scale goes.now first.now values.now axis }
{
    goes.scale[axis] && same_scale(scale_on(first.scale, axis), scale_on(values.scale, axis))
}

/// Whether the offset of an axis still goes over.
fn agreeing_offset(goes: &Fields, first: &HeaderValues, values: &HeaderValues, axis: usize) -> bool
    requires { axis < 3 }
    ensures { result ≡ agreeing_offset goes.now first.now values.now axis }
{
    goes.offset[axis] && offset_on(first.offset, axis) == offset_on(values.offset, axis)
}

/// The fields that still go over behind these values; `lists` says whether the lists do.
#[tactic(auto, unfolding(crate::specs::States::agreeing))]
fn agreeing(goes: &Fields, first: &HeaderValues, values: &HeaderValues, lists: bool) -> Fields
    ensures { result ≡ agreeing goes.now first.now values.now lists }
{
    Fields {
        format: goes.format && same_format(first.format, values.format),
        scale: [
            agreeing_scale(goes, first, values, 0),
            agreeing_scale(goes, first, values, 1),
            agreeing_scale(goes, first, values, 2),
        ],
        offset: [
            agreeing_offset(goes, first, values, 0),
            agreeing_offset(goes, first, values, 1),
            agreeing_offset(goes, first, values, 2),
        ],
        source_id: goes.source_id && first.source_id == values.source_id,
        encoding: goes.encoding && first.encoding == values.encoding,
        guid: goes.guid && first.guid == values.guid,
        system: goes.system && first.system == values.system,
        software: goes.software && first.software == values.software,
        day: goes.day && first.day == values.day,
        year: goes.year && first.year == values.year,
        lists,
    }
}

/// A value that is given, or else goes over, or else is the default.
fn picked<T: Copy>(given: Option<T>, goes: bool, read: T, default: T) -> T
    ensures { result ≡ picked given goes read default }
{
    match given {
        Some(value) => value,
        None => { if goes { read } else { default } }
    }
}

/// The scale of an axis, decided.
fn picked_scale(given: &GivenValues, goes: &Fields, first: &HeaderValues, axis: usize) -> Scale
    requires { axis < 3 }
    ensures { result ≡ picked (given_on given.now.scale axis) (flag_on goes.now.scale axis)
        (scale_on first.now.scale axis) (scale_on default_values.scale axis) }
{
    let default = scale_on(HeaderValues::default().scale, axis);
    picked(
        given.scale[axis],
        goes.scale[axis],
        scale_on(first.scale, axis),
        default,
    )
}

/// The offset of an axis, decided.
fn picked_offset(given: &GivenValues, goes: &Fields, first: &HeaderValues, axis: usize) -> i64
    requires { axis < 3 }
    ensures { result ≡ picked (given_on given.now.offset axis) (flag_on goes.now.offset axis)
        (offset_on first.now.offset axis) (offset_on default_values.offset axis) }
{
    let default = offset_on(HeaderValues::default().offset, axis);
    picked(
        given.offset[axis],
        goes.offset[axis],
        offset_on(first.offset, axis),
        default,
    )
}

/// The scales, decided.
fn picked_scales(given: &GivenValues, goes: &Fields, first: &HeaderValues) -> [Scale; 3]
    ensures { result ≡ picked_scales given.now goes.now first.now }
{
    [
        picked_scale(given, goes, first, 0),
        picked_scale(given, goes, first, 1),
        picked_scale(given, goes, first, 2),
    ]
}

/// The offsets, decided.
fn picked_offsets(given: &GivenValues, goes: &Fields, first: &HeaderValues) -> [i64; 3]
    ensures { result ≡ picked_offsets given.now goes.now first.now }
{
    [
        picked_offset(given, goes, first, 0),
        picked_offset(given, goes, first, 1),
        picked_offset(given, goes, first, 2),
    ]
}

/// The format, if files of the version have it, and else the default.
fn format_in(minor: u8, format: Format) -> Format
    ensures { result ≡ format_in minor format }
{
    if takes_format(minor, format) {
        format
    } else {
        HeaderValues::default().format
    }
}

/// The form with these lists and extra dimensions.
#[tactic(auto, unfolding(crate::specs::States::picked_form))]
fn picked_form(
    given: &GivenValues,
    goes: &Fields,
    first: &HeaderValues,
    vlrs: VlrList,
    evlrs: VlrList,
    extra: FieldList,
) -> LasForm
    ensures { result ≡ picked_form given.now goes.now first.now vlrs evlrs extra }
{
    let default = HeaderValues::default();
    let minor = given.minor.unwrap_or(MINOR);
    let format = picked(given.format, goes.format, first.format, default.format);
    LasForm {
        format: format_in(minor, format),
        minor,
        scale: picked_scales(given, goes, first),
        offset: picked_offsets(given, goes, first),
        source_id: picked(
            given.source_id,
            goes.source_id,
            first.source_id,
            default.source_id,
        ),
        encoding: picked(
            given.encoding,
            goes.encoding,
            first.encoding,
            default.encoding,
        ),
        guid: picked(None, goes.guid, first.guid, default.guid),
        system: picked(given.system, goes.system, first.system, default.system),
        software: picked(
            given.software,
            goes.software,
            first.software,
            default.software,
        ),
        day: picked(given.day, goes.day, first.day, default.day),
        year: picked(given.year, goes.year, first.year, default.year),
        vlrs,
        evlrs,
        extra,
    }
}

/// The list, where it goes over, and else an empty one. It takes no memory.
fn kept(goes: bool, vlrs: VlrList) -> VlrList
    ensures { result ≡ kept goes vlrs }
{
    if goes {
        return vlrs;
    }
    let mut none = vlrs.into_vec();
    none.clear();
    VlrList::new(none)
}

impl Forwarding {
    /// A writer's options, with no file read yet. It is refused only where there is no memory.
    pub fn begin(alloc: Global, opts: &LasOpts) -> Result<Forwarding, AllocError>
        ensures { IfOk result (λ f. f ≡ forwarding_of opts.now []) }
    {
        Ok(Forwarding {
            given: GivenValues::of(opts),
            goes: Fields::asked(&opts.forward),
            begun: false,
            first: HeaderValues::default(),
            vlrs: VlrList::new(Vec::new(alloc)),
            evlrs: VlrList::new(Vec::new(alloc)),
        })
    }

    /// Adds a file that is read. It takes memory for the lists of the first file, where they are asked for.
    ///
    /// A refused call changes nothing.
    pub fn add(
        &mut self,
        alloc: Global,
        header: &Header,
        vlrs: &VlrList,
        evlrs: &VlrList,
    ) -> Result<(), AllocError>
        ensures ok { OnOk result ((opts : LasOpts) (reads : List ReadFile) → self.old ≡ forwarding_of opts reads
            → self.new ≡ forwarding_of opts (reads ++ read_file header.now vlrs.now evlrs.now ∷ [])) }
        ensures err { OnErr result (self.new ≡ self.old) }
    {
        if self.begun {
            self.agree(header, vlrs, evlrs);
            return Ok(());
        }
        self.start(alloc, header, vlrs, evlrs)
    }

    /// What a writer with these options writes around the points of these files: each value is the one that is given, or
    /// else the one that all files have, where it is asked for, or else the default. The version doesn't go over, nor does a
    /// format that its files don't have. Both lists go over together, without the records that describe extra bytes, and no
    /// extra dimensions do. It takes no memory.
    pub fn form(self, alloc: Global) -> LasForm
        ensures { (opts : LasOpts) (reads : List ReadFile) → self ≡ forwarding_of opts reads
            → result ≡ form_of opts reads }
    {
        let lists = self.goes.lists;
        let vlrs = without_extra_bytes(kept(lists, self.vlrs));
        let evlrs = kept(lists, self.evlrs);
        let extra = FieldList::none(alloc);
        picked_form(&self.given, &self.goes, &self.first, vlrs, evlrs, extra)
    }

    /// Takes the values of the first file.
    fn start(
        &mut self,
        alloc: Global,
        header: &Header,
        vlrs: &VlrList,
        evlrs: &VlrList,
    ) -> Result<(), AllocError>
        ensures ok { OnOk result (self.new ≡ started self.old (read_file header.now vlrs.now evlrs.now)) }
        ensures err { OnErr result (self.new ≡ self.old) }
    {
        if self.goes.lists {
            let own_vlrs = vlrs.try_copy(alloc)?;
            let own_evlrs = evlrs.try_copy(alloc)?;
            self.vlrs = own_vlrs;
            self.evlrs = own_evlrs;
        }
        self.first = HeaderValues::of(header);
        self.begun = true;
        Ok(())
    }

    /// Notes in which fields a further file differs from the first.
    fn agree(&mut self, header: &Header, vlrs: &VlrList, evlrs: &VlrList)
        ensures { self.new ≡ agreed self.old (read_file header.now vlrs.now evlrs.now) }
    {
        let lists = self.goes.lists && self.vlrs.is_same(vlrs) && self.evlrs.is_same(evlrs);
        self.goes = agreeing(&self.goes, &self.first, &HeaderValues::of(header), lists);
    }
}
