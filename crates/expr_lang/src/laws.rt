//! Laws that hold of all texts.

ghost use Rattle.expr_lang.specs.Laws.{HaveOneAnswer, IsReadBy};
ghost use Rattle.expr_lang.specs.Fronts.{IsTooDeep};
ghost use Rattle.expr_lang.specs.Said.{condition_of, assignment_of_text};
ghost use Rattle.expr_lang.specs.Texts.{IsConditionSaid, IsAssignmentSaid, IsTooDeepAssignment};

/// A text says one condition or has one first fault, and one assignment or one first fault.
pub fn texts_have_one_answer()
    ensures conditions { HaveOneAnswer IsConditionSaid IsTooDeep }
    ensures assignments { HaveOneAnswer IsAssignmentSaid IsTooDeepAssignment }
{}

/// The functions of specs/Said give what texts say, and nothing exactly where there is a fault.
pub fn texts_are_read()
    ensures conditions { IsReadBy IsConditionSaid IsTooDeep condition_of }
    ensures assignments { IsReadBy IsAssignmentSaid IsTooDeepAssignment assignment_of_text }
{}
