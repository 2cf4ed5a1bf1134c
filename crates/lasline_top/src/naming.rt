//! The pipeline of a text, as far as it can be run.

ghost use Rattle.std.specs.Prelude.{◌≡◌, Ok, IfErr, IfOk};
ghost use Rattle.answer_model.specs.Naming.{AreNamed};
ghost use Rattle.lasline_top.specs.Answer.{runnable_in, stages_in};
ghost use Rattle.lasline_top.specs.Cause.{IsOfText, Never};
ghost use Rattle.plug_stages.specs.Handed.{handed_by};
ghost use Rattle.run_outcome.specs.Cause.{Because};
ghost use Rattle.stage_options.specs.TreeShown.{specs_view};

use crate::pipeline_file::{read_stages, refusal_of};
use plug_naming::check_names;
use plug_stages::{Places, PlugFilter, PlugTally};
use run_report::Refusal;
use stage_options::Tree;
use std::alloc::Global;

/// The pipeline that a text is, whose stages name filters and tallies that are there, each once.
pub(crate) fn runnable_stages<P: PlugFilter, Q: PlugTally>(
    alloc: Global,
    text: &[u8],
    places: &Places<P, Q>,
) -> Result<Tree, Refusal>
    ensures ok { IfOk result (λ tree. runnable_in (handed_by P.PlugFilter Q.PlugTally places.now) text.now
        ≡ Ok (specs_view tree)) }
    ensures read { IfOk result (λ tree. stages_in text.now ≡ Ok (specs_view tree)) }
    ensures named { IfOk result (λ tree. AreNamed (handed_by P.PlugFilter Q.PlugTally places.now)
        (specs_view tree)) }
    ensures err { IfErr result
        (Because (runnable_in (handed_by P.PlugFilter Q.PlugTally places.now) text.now) Never) }
    ensures of_text { IfErr result IsOfText }
{
    let tree = read_stages(alloc, text)?;
    match check_names(alloc, tree.as_slice(), places) {
        Ok(()) => Ok(tree),
        Err(e) => Err(refusal_of(e)),
    }
}
