//! Laws of the text of points.

ghost use Rattle.std.specs.Prelude.{◌≡◌, ℕ, List, ◌++◌, Some, true, decimal};
ghost use Rattle.std.specs.List.{flat_map};
ghost use Rattle.cloud_points.specs.Dims.{kind_of};
ghost use Rattle.cloud_points.specs.Points.{get, whole};
ghost use Rattle.cloud_points.specs.declared.dims.Kind.TheVariants.{Whole};
ghost use Rattle.cloud_points.specs.declared.point.Point.{Point};
ghost use Rattle.text_writer.specs.Cells.{cell};
ghost use Rattle.text_writer.specs.declared.form.Column.{Column};
ghost use Rattle.text_writer.specs.declared.form.TextForm.{TextForm};
ghost use Rattle.text_writer.specs.TextOutput.{text_line, text_output, holds_text};

/// The text of points and then of more is the text of the first ones, and then a line for each of the others.
pub fn text_grows()
    ensures { (f : TextForm) (a b : List Point)
        → text_output f (a ++ b) ≡ text_output f a ++ flat_map (text_line f) b }
{}

/// A cell of a whole number is that number in decimal digits.
pub fn whole_numbers_are_whole()
    ensures { (p : Point) (c : Column) (n : ℕ) → kind_of c.dim ≡ Whole
        → get p c.dim ≡ whole n → cell p c ≡ decimal n }
{}

/// What a sink that tells its bytes holds of points is their text; and with more points it holds what it held, and then a
/// line for each of the others.
pub fn held_text_grows()
    ensures text { (b : List ℕ) (f : TextForm) (ps : List Point)
        → holds_text (Some b) f ps ≡ true → b ≡ text_output f ps }
    ensures grows { (b c : List ℕ) (f : TextForm) (ps more : List Point) → holds_text (Some b) f ps ≡ true
        → holds_text (Some c) f (ps ++ more) ≡ true → c ≡ b ++ flat_map (text_line f) more }
{}
