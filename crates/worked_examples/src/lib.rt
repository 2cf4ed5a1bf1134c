//! Worked examples of the definition of an answer, proved by computing it. They show that the definition says what is
//! meant: the functions have no code, and each clause of their contracts is one example.
#![tactic(auto)]

ghost use Rattle.std.specs.Prelude.{◌≡◌, ◌∷◌, [], ℕ, List, take, codes, None, Ok, Err, IsOk};
ghost use Rattle.file_devices.specs.Named.{Names};
ghost use Rattle.file_devices.specs.declared.devices.Op.{Op};
ghost use Rattle.las_header.specs.declared.faults.HeaderAxis.{HeaderAxis};
ghost use Rattle.las_header.specs.declared.faults.HeaderFault.{HeaderFault};
ghost use Rattle.las_vlr.specs.declared.entry.VlrFault.{VlrFault};
ghost use Rattle.cloud_points.specs.declared.faults.PointFault.{PointFault};
ghost use Rattle.stage_names.specs.declared.faults.PipeFault.{PipeFault};
ghost use Rattle.plug_stages.specs.Handed.{none_handed};
ghost use Rattle.lasline_top.specs.Answer.{answer, made, printed, stages_in, trial_text};
ghost use Rattle.run_report.specs.declared.refusal.Refusal.{Refusal};
ghost use Rattle.run_report.specs.declared.refusal.Fault.{Fault};
ghost use Rattle.run_report.specs.declared.refusal.Place.{Place};
ghost use Rattle.worked_examples.specs.Rows.{run_p, run_p_in_pieces, head_of_1, head_of_0, file_a, file_of_1_1, file_of_1_2, file_of_1_2_in_format_6, file_of_format_6, file_of_a_vlr, file_of_many_vlrs, file_of_a_far_evlr, file_compressed, file_of_neighbour, file_far, file_with_x, file_without_points, files, files_with, tagged_head, reader_alone, writer_between, pipeline_alone, two_points, far_point, no_points, first_point, none_pass, only_read, all_and_first, twice, second_absent, two_points_twice};

/// A file of two points becomes 49 bytes of text and a report of three lines, and so it does in LAS 1.2, and in longer records of
/// another format. A point far from 0 keeps each digit, and a file of no points becomes the names of the columns.
pub fn whole_files_become_text()
    ensures two_points { answer none_handed run_p (files file_a) ≡ Ok two_points }
    ensures older_version { answer none_handed run_p (files file_of_1_2) ≡ Ok two_points }
    ensures longer_records { answer none_handed run_p (files file_of_format_6) ≡ Ok two_points }
    ensures far_point { answer none_handed run_p (files file_far) ≡ Ok far_point }
    ensures no_points { answer none_handed run_p (files file_without_points) ≡ Ok no_points }
{}

/// A head lets the first points of a view pass, and each stage is counted by what it gives on. A tag changes nothing.
pub fn heads_let_the_first_points_pass()
    ensures one { answer none_handed run_p (files_with head_of_1 file_a) ≡ Ok first_point }
    ensures none { answer none_handed run_p (files_with head_of_0 file_a) ≡ Ok none_pass }
    ensures tagged { answer none_handed run_p (files_with tagged_head file_a) ≡ Ok first_point }
{}

/// A reader alone keeps no file. A writer writes what it takes and gives it on, so a head behind it changes only what comes
/// later, and the outputs stand in the order of their stages.
pub fn chains_keep_what_their_writers_take()
    ensures reader_alone { answer none_handed run_p (files_with reader_alone file_a) ≡ Ok only_read }
    ensures writer_between { answer none_handed run_p (files_with writer_between file_a) ≡ Ok all_and_first }
{}

/// A stage takes its inputs one behind the other: two readers before a writer are one text, also where they name one file. The
/// first reader whose file can't be read is named.
pub fn inputs_are_joined()
    ensures one_file_twice { answer none_handed run_p (files_with twice file_a) ≡ Ok two_points_twice }
    ensures second_absent { answer none_handed run_p (files_with second_absent file_a) ≡ Err (Refusal.Device (Place.Stage 1) Op.Open) }
{}

/// The pieces that a run is cut into change nothing, whatever files there are.
#[tactic(auto, unfolding(command_words::specs::Machine::command_of))]
pub fn pieces_change_nothing()
    ensures { (m : Names) → answer none_handed run_p_in_pieces m ≡ answer none_handed run_p m }
{}

/// A file that can't be read whole is refused for its first fault.
pub fn files_are_refused()
    ensures last_byte_missing { answer none_handed run_p (files (take 414 file_a)) ≡ Err (Refusal.Data 0 (Fault.Point (PointFault.Cut 1))) }
    ensures no_record_whole { answer none_handed run_p (files (take 394 file_a)) ≡ Err (Refusal.Data 0 (Fault.Point (PointFault.Cut 0))) }
    ensures compressed_points { answer none_handed run_p (files file_compressed) ≡ Err (Refusal.Data 0 (Fault.Header HeaderFault.Compressed)) }
    ensures neighbour_of_a_scale { answer none_handed run_p (files file_of_neighbour) ≡ Err (Refusal.Data 0 (Fault.Header (HeaderFault.ScaleNotDecimal HeaderAxis.X))) }
    ensures vlr_past_points { answer none_handed run_p (files file_of_a_vlr) ≡ Err (Refusal.Data 0 (Fault.Vlr (VlrFault.VlrPastPoints 0))) }
    ensures too_many_vlrs { answer none_handed run_p (files file_of_many_vlrs) ≡ Err (Refusal.Data 0 (Fault.Vlr VlrFault.TooManyVlrs)) }
    ensures evlr_past_end { answer none_handed run_p (files file_of_a_far_evlr) ≡ Err (Refusal.Data 0 (Fault.Vlr (VlrFault.EvlrPastEnd 0))) }
    ensures header_cut_short { answer none_handed run_p (files (take 374 file_a)) ≡ Err (Refusal.Data 0 (Fault.Header HeaderFault.HeaderSize)) }
    ensures older_header_cut_short { answer none_handed run_p (files (take 226 file_of_1_2)) ≡ Err (Refusal.Data 0 (Fault.Header HeaderFault.HeaderSize)) }
    ensures another_version { answer none_handed run_p (files file_of_1_1) ≡ Err (Refusal.Data 0 (Fault.Header HeaderFault.VersionNotRead)) }
    ensures format_of_another_version { answer none_handed run_p (files file_of_1_2_in_format_6) ≡ Err (Refusal.Data 0 (Fault.Header HeaderFault.FormatNotRead)) }
    ensures another_signature { answer none_handed run_p (files file_with_x) ≡ Err (Refusal.Data 0 (Fault.Header HeaderFault.NotLas)) }
    ensures signature_cut_short { answer none_handed run_p (files (take 3 file_a)) ≡ Err (Refusal.Data 0 (Fault.Header HeaderFault.NotLas)) }
    ensures no_bytes { answer none_handed run_p (files []) ≡ Err (Refusal.Data 0 (Fault.Header HeaderFault.NotLas)) }
    ensures absent { answer none_handed run_p pipeline_alone ≡ Err (Refusal.Device (Place.Stage 0) Op.Open) }
{}

/// A pipeline file that isn't there can't be opened, and one whose text is no tree of stages with right options is refused
/// for its first fault.
pub fn pipelines_are_refused()
    ensures absent { answer none_handed run_p (λ name. None) ≡ Err (Refusal.Device Place.PipelineFile Op.Open) }
    ensures empty_array { answer none_handed run_p (files_with (codes "[]") file_a) ≡ Err (Refusal.Pipeline PipeFault.Empty) }
    ensures no_json { answer none_handed run_p (files_with (codes "[\"in.las\"") file_a) ≡ Err (Refusal.Pipeline PipeFault.NotJson) }
    ensures no_stages { answer none_handed run_p (files_with (codes "{}") file_a) ≡ Err (Refusal.Pipeline PipeFault.NotAPipeline) }
    ensures another_ending { answer none_handed run_p (files_with (codes "[\"in.las\",\"o.laz\"]") file_a) ≡ Err (Refusal.Pipeline (PipeFault.CannotInfer 1)) }
    ensures a_head_first { answer none_handed run_p (files_with (codes "[{\"type\":\"filters.head\"},\"in.las\",\"o.txt\"]") file_a) ≡ Err (Refusal.Pipeline (PipeFault.NoInput 0)) }
    ensures a_tag_twice { answer none_handed run_p (files_with (codes "[{\"filename\":\"in.las\",\"tag\":\"a\"},{\"type\":\"filters.head\",\"tag\":\"a\"},\"o.txt\"]") file_a) ≡ Err (Refusal.Pipeline (PipeFault.TagTwice 1)) }
    ensures an_unknown_tag { answer none_handed run_p (files_with (codes "[{\"filename\":\"in.las\",\"tag\":\"a\"},{\"filename\":\"o.txt\",\"inputs\":[\"b\"]}]") file_a) ≡ Err (Refusal.Pipeline (PipeFault.TagUnknown 1)) }
    ensures an_input_taken_twice { answer none_handed run_p (files_with (codes "[{\"filename\":\"in.las\",\"tag\":\"a\"},{\"type\":\"filters.head\",\"inputs\":[\"a\"]},{\"filename\":\"o.txt\",\"inputs\":[\"a\"]}]") file_a) ≡ Err (Refusal.Pipeline (PipeFault.UsedTwice 2)) }
    ensures two_number_signs { answer none_handed run_p (files_with (codes "[\"in.las\",\"o##.txt\"]") file_a) ≡ Err (Refusal.Pipeline (PipeFault.OptionValue 1 (codes "filename"))) }
    ensures an_unknown_option { answer none_handed run_p (files_with (codes "[\"in.las\",{\"type\":\"filters.head\",\"cuont\":1},\"o.txt\"]") file_a) ≡ Err (Refusal.Pipeline (PipeFault.OptionUnknown 1 (codes "cuont"))) }
    ensures a_count_too_large { answer none_handed run_p (files_with (codes "[\"in.las\",{\"type\":\"filters.head\",\"count\":4294967296},\"o.txt\"]") file_a) ≡ Err (Refusal.Pipeline (PipeFault.OptionValue 1 (codes "count"))) }
    ensures two_writers_of_a_name { answer none_handed run_p (files_with (codes "[\"in.las\",{\"type\":\"writers.text\",\"filename\":\"o.txt\"},\"o.txt\"]") file_a) ≡ Err (Refusal.Pipeline (PipeFault.SameOutput 2)) }
    ensures another_order { answer none_handed run_p (files_with (codes "[\"in.las\",{\"type\":\"filters.sort\",\"dimension\":\"Z\",\"order\":\"up\"},\"o.txt\"]") file_a) ≡ Err (Refusal.Pipeline (PipeFault.OptionValue 1 (codes "order"))) }
{}

/// Words that are no command are refused for the first one that is wrong or missing, whatever files there are.
#[tactic(auto, unfolding(command_words::specs::Machine::command_of))]
pub fn words_are_refused()
    ensures none { (m : Names) → answer none_handed [] m ≡ Err (Refusal.Usage 0) }
    ensures another_command { (m : Names) → answer none_handed (codes "fly" ∷ []) m ≡ Err (Refusal.Usage 0) }
    ensures no_file { (m : Names) → answer none_handed (codes "run" ∷ []) m ≡ Err (Refusal.Usage 1) }
    ensures one_more { (m : Names) → answer none_handed (codes "run" ∷ codes "p.json" ∷ codes "--chunk" ∷ []) m ≡ Err (Refusal.Usage 3) }
    ensures chunk_of_none { (m : Names) → answer none_handed (codes "run" ∷ codes "p.json" ∷ codes "--chunk" ∷ codes "0" ∷ []) m ≡ Err (Refusal.Usage 3) }
    ensures an_option_twice { (m : Names) → answer none_handed (codes "run" ∷ codes "p.json" ∷ codes "--chunk" ∷ codes "4" ∷ codes "--chunk" ∷ codes "4" ∷ []) m ≡ Err (Refusal.Usage 4) }
    ensures a_plan_with_an_option { (m : Names) → answer none_handed (codes "plan" ∷ codes "p.json" ∷ codes "--whole" ∷ []) m ≡ Err (Refusal.Usage 2) }
{}

/// A run on whole lists answers what one over queues does, and so does one over queues of another size.
#[tactic(auto, unfolding(command_words::specs::Machine::command_of))]
pub fn engines_answer_alike()
    ensures whole { (m : Names) → answer none_handed (codes "run" ∷ codes "p.json" ∷ codes "--whole" ∷ []) m ≡ answer none_handed run_p m }
    ensures short { (m : Names) → answer none_handed (codes "run" ∷ codes "p.json" ∷ codes "--queue" ∷ codes "1" ∷ []) m ≡ answer none_handed run_p m }
    ensures trial { (m : Names) → answer none_handed (codes "trial" ∷ codes "9" ∷ codes "--whole" ∷ []) m ≡ answer none_handed (codes "trial" ∷ codes "9" ∷ []) m }
{}

/// A page is printed, and nothing is kept.
#[tactic(auto, unfolding(command_words::specs::Machine::command_of))]
pub fn pages_are_printed()
    ensures version { (m : Names) → answer none_handed (codes "--version" ∷ []) m ≡ Ok (printed (codes "lasline 1\n")) }
{}

/// A plan is the text of its steps, and a generated file is the one that is kept. The pipeline of a trial is one.
pub fn other_commands_are_answered()
    ensures plan { answer none_handed (codes "plan" ∷ codes "p.json" ∷ []) (files file_a) ≡ Ok (printed (codes "run 0 1\nsteps 1\n")) }
    ensures generated { (m : Names) → answer none_handed (codes "gen" ∷ codes "1" ∷ codes "g.las" ∷ []) m ≡ Ok (made 1 (codes "g.las")) }
    ensures trial { IsOk (stages_in trial_text) }
{}
