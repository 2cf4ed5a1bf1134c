//! The names of dimensions are bound, and what the works of stages are made of is decided.

ghost use Rattle.std.specs.Prelude.{◌≡◌, ◌≤◌, ◌<◌, ◌||◌, length, All, Option, None, is_some, IfOk, IfErr, OnOk};
ghost use Rattle.cloud_points.specs.Layouts.{holds};
ghost use Rattle.cloud_points.specs.declared.dims.Dim.{Dim};
ghost use Rattle.extra_bytes.specs.Asked.{AreOwn};
ghost use Rattle.pipeline_json.specs.Trees.{IsTree};
ghost use Rattle.answer_model.specs.Values.{fields_past, gives_dim, names_past, unbound};
ghost use Rattle.plug_stages.specs.Handed.{Handed};
ghost use Rattle.run_report.specs.declared.refusal.Refusal.{Refusal};
ghost use Rattle.stage_names.specs.Faults.{IsFaultOf};
ghost use Rattle.stage_names.specs.declared.faults.PipeErr.{PipeErr};
ghost use Rattle.stage_names.specs.declared.faults.PipeFault.{PipeFault};
ghost use Rattle.stage_options.specs.Roles.{is_reading, role_of};
ghost use Rattle.stage_options.specs.Shapes.{shapes};
ghost use Rattle.stage_forms.specs.Below.{AreReaders, found_of, reads_in};
ghost use Rattle.stage_forms.specs.Starts.{form_for};
ghost use Rattle.run_opening.specs.Begun.{AreFine, AreForms, AreLayouts, AreNamesBound, FitStages, IsFine, IsForm, IsUnbound};
ghost use Rattle.run_opening.specs.Binding.{IsUnboundAt};

use cloud_points::{ExtraNames, Layout};
use file_devices::Source;
use las_reader::LasReader;
use name_binding::bind;
use run_report::Refusal;
use stage_forms::{Below, next_below, stage_form, take_fields};
use stage_kinds::StageForm;
use stage_names::{PipeErr, PipeFault};
use stage_options::StageSpec;
use std::alloc::Global;

/// The refusal of a run where a stage isn't bound.
fn unbound_refusal(err: PipeErr) -> Refusal
    ensures at { (found : Option PipeFault) → IsFaultOf found err → IsUnboundAt found result }
    ensures fault { (f : PipeFault) → err ≡ PipeErr.Fault f → result ≡ Refusal.Pipeline f }
{
    match err {
        PipeErr::Fault(fault) => Refusal::Pipeline(fault),
        PipeErr::Memory => Refusal::Memory,
    }
}

/// Binds the names of dimensions in a stage's options, the stage with this number and this reader, where it has one, and answers
/// what its work is made of. What stood below it stands behind it then, with the dimensions that it adds. Beside a name that isn't
/// bound, and a field of its file without a place, it is refused only where memory is wanting.
fn bind_stage<S: Source>(
    alloc: Global,
    stage: &StageSpec,
    number: u32,
    reader: &Option<LasReader<S>>,
    below: &mut Below,
    names: &mut ExtraNames,
    readers: &[Option<LasReader<S>>],
) -> Result<StageForm, Refusal>
    requires inside { All (λ j. j < length readers.now) below.old.readers.items }
    requires fit { is_some reader.now ≡ is_reading (role_of stage.now.options) }
    requires own { AreOwn names.old }
    ensures form { let found = found_of stage.now.options reader.now in
        IfOk result (λ o. (handed : Handed) → o ≡ form_for stage.now.options (record {
          names = names.old;
          reads = reads_in readers.now below.old.readers.items;
          dims = holds below.old.layout;
          fields = fields_past names.old stage.now.options found;
          handed = handed;
        })) }
    ensures fits { IfOk result (IsForm stage.now.options) }
    ensures fine { IfOk result (IsFine reader.now) }
    ensures names { OnOk result (names.new
        ≡ names_past names.old stage.now.options (found_of stage.now.options reader.now)) }
    ensures own { OnOk result (AreOwn names.new) }
    ensures layout { OnOk result ((dim : Dim) → holds below.new.layout dim ≡ (holds below.old.layout dim
        || gives_dim names.old stage.now.options (found_of stage.now.options reader.now) dim)) }
    ensures readers { OnOk result (below.new.readers ≡ below.old.readers) }
    ensures bound { OnOk result (unbound number names.old (holds below.old.layout) stage.now.options
        (found_of stage.now.options reader.now) ≡ None) }
    ensures err { IfErr result (IsUnboundAt (unbound number names.old (holds below.old.layout)
        stage.now.options (found_of stage.now.options reader.now))) }
{
    let options = &stage.options;
    let bound = match bind(alloc, options, number, &mut below.layout, names) {
        Ok(bound) => bound,
        Err(err) => return Err(unbound_refusal(err)),
    };
    match reader {
        Some(reader) => {
            drop(bound);
            match take_fields(alloc, options, reader, number, &mut below.layout, names) {
                Ok(fields) => Ok(StageForm::Reads(fields)),
                Err(err) => Err(unbound_refusal(err)),
            }
        }
        None => {
            match stage_form(
                alloc,
                options,
                bound,
                names,
                readers,
                below.readers.as_slice(),
            ) {
                Ok(form) => Ok(form),
                Err(_) => Err(Refusal::Memory),
            }
        }
    }
}

/// What the works of stages are made of, and the dimensions of the points that each gives on.
#[derive(Drop)]
pub(crate) struct BoundStages {
    pub forms: Vec<StageForm>,
    pub layouts: Vec<Layout>,
}

/// Binds the names of dimensions in the options of a tree's stages, in their order, over their opened readers, and answers what
/// each stage's work is made of. It is refused with the fault of the first stage that has one, and else only where memory is wanting.
pub(crate) fn bind_stages<S: Source>(
    alloc: Global,
    stages: &[StageSpec],
    readers: &[Option<LasReader<S>>],
) -> Result<BoundStages, Refusal>
    requires tree { IsTree (shapes stages.now) }
    requires few { length stages.now ≤ 64 }
    requires count { length readers.now ≡ length stages.now }
    requires fit { AreReaders stages.now readers.now }
    ensures forms { IfOk result (λ bound. AreForms stages.now readers.now bound.forms.items) }
    ensures fits { IfOk result (λ bound. FitStages stages.now bound.forms.items) }
    ensures fine { IfOk result (λ bound. AreFine readers.now bound.forms.items) }
    ensures count { IfOk result (λ bound. length bound.forms.items ≡ length stages.now) }
    ensures layouts { IfOk result (λ bound. AreLayouts stages.now readers.now bound.layouts.items) }
    ensures as_many { IfOk result (λ bound. length bound.layouts.items ≡ length stages.now) }
    ensures bound { OnOk result (AreNamesBound stages.now readers.now (length stages.now)) }
    ensures err { IfErr result (IsUnbound stages.now readers.now) }
{
    let Ok(mut belows) = Vec::with_capacity(alloc, stages.len()) else {
        return Err(Refusal::Memory);
    };
    let Ok(mut forms) = Vec::with_capacity(alloc, stages.len()) else {
        return Err(Refusal::Memory);
    };
    let Ok(mut layouts) = Vec::with_capacity(alloc, stages.len()) else {
        return Err(Refusal::Memory);
    };
    let mut names = ExtraNames::none(alloc);
    for i in 0..stages.len() {
        let Ok(mut below) = next_below(alloc, stages, readers, belows.as_slice()) else {
            return Err(Refusal::Memory);
        };
        let form = bind_stage(
            alloc,
            &stages[i],
            i as u32,
            &readers[i],
            &mut below,
            &mut names,
            readers,
        )?;
        let layout = below.layout;
        forms.push_reserved(form);
        belows.push_reserved(below);
        layouts.push_reserved(layout);
    }
    Ok(BoundStages { forms, layouts })
}
