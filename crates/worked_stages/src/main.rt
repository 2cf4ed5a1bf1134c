//! Calls what the libraries of stages offer on worked examples, and says of each check whether it came right: devices in
//! memory, points, queues and nets, words and names, filters and whole views, and pipelines up to their plans.
#![tactic(auto)]

mod devices;
mod filter_texts;
mod filters;
mod gathers;
mod layouts;
mod names;
mod nets;
mod options;
mod parts;
mod plans;
mod plugs;
mod points;
mod queues;
mod stages;
mod tiles;
mod trees;
mod view_files;
mod views;
mod wheres;
mod words;

use check_report::{Report, checks};
use std::alloc::Global;
use std::process::ExitCode;

/// Devices, points and what they are called.
fn tell_points(rt: &HostRuntime, alloc: Global, report: &mut Report) {
    checks! { rt, report;
        devices::reads_come_in_pieces_and_are_filled(alloc);
        devices::whole_sources_are_read_up_to_a_limit(alloc);
        devices::a_sink_fails_at_its_numbers_and_past_its_room(alloc);
        devices::a_sure_sink_tells_up_to_its_room(alloc);
        devices::chosen_calls_fail_on_each_object(alloc);
        devices::sure_files_tell_until_a_sink_went_over(alloc);
        devices::texts_come_back(alloc);
        points::each_range_holds_its_ends_and_no_more();
        points::whole_numbers_are_rounded_half_away();
        points::extra_dimensions_stand_apart();
        points::a_number_beyond_the_eight_stands_for_the_last();
        points::times_are_words();
        points::chunks_hold_the_points_of_their_spread();
        points::points_are_put_in_place_of_fewer_and_of_more();
        points::only_an_end_ends();
        points::a_set_has_the_dimensions_that_were_put_in();
        names::names_are_read_in_any_case(alloc);
        names::an_extra_name_keeps_its_first_spelling(alloc);
        names::there_are_eight_extra_names_at_most(alloc);
        words::commands_are_read(alloc);
        words::bad_words_are_placed(alloc);
    }
}

/// Queues, nets, and stages that run by themselves.
fn tell_stages(rt: &HostRuntime, alloc: Global, report: &mut Report) {
    checks! { rt, report;
        queues::items_come_out_in_order_and_a_full_queue_hands_back(alloc);
        queues::parts_go_round_the_slots(alloc);
        nets::two_leaves_are_read_one_after_the_other(alloc) == Ok(true);
        nets::a_leaf_is_not_read_on_behind_a_fault(alloc) == Ok(true);
        stages::a_reader_gives_its_points_and_its_end(alloc);
        stages::a_writer_lets_its_points_pass_until_its_sink_fails(alloc);
        view_files::views_are_given_on_and_counted(alloc);
        view_files::each_view_has_its_own_text(alloc);
        view_files::a_point_without_a_place_has_its_number_over_all_views(alloc);
        parts::each_node_has_the_first_gathering_node_above_it(alloc) == Ok(true);
        parts::strangers_stand_behind_what_the_root_takes(alloc) == Ok(true);
        parts::a_node_that_gathers_is_a_leaf_of_the_last_part(alloc) == Ok(true);
        parts::the_lowest_part_has_no_strangers(alloc) == Ok(true);
    }
}

/// Filters, and views that are whole.
fn tell_filters(rt: &HostRuntime, alloc: Global, report: &mut Report) {
    checks! { rt, report;
        filters::filters_judge_the_points_that_pass(alloc);
        filters::numbers_count_over_views_and_positions_in_each(alloc);
        filters::a_merge_ends_its_view_with_an_end_that_is_not_cut();
        wheres::points_that_pass_are_written_up_to_one_without_a_value(alloc);
        plugs::a_spike_filter_keeps_what_is_near_the_last_kept_point(alloc);
        plugs::a_filter_works_again_when_it_was_handed_back(alloc);
        plugs::bounds_are_those_of_all_points_that_pass(alloc);
        plugs::classes_are_told_in_order(alloc);
        views::flows_are_joined(alloc);
        views::fronts_of_views_are_put_behind_others(alloc);
        views::points_of_views_are_copied(alloc);
        layouts::points_of_each_format_are_held(alloc);
        gathers::views_are_gathered(alloc);
        gathers::times_stand_in_the_order_of_their_words(alloc);
        gathers::of_cut_views_nothing_goes_on(alloc);
        tiles::values_lie_in_cells();
        tiles::views_are_parted_by_squares(alloc);
        tiles::views_are_thinned_by_voxels(alloc);
    }
}

/// Pipelines, from their text to their plan.
fn tell_pipelines(rt: &HostRuntime, alloc: Global, report: &mut Report) {
    checks! { rt, report;
        trees::texts_are_read(alloc);
        trees::limits_are_kept(alloc);
        trees::names_and_options_are_kept(alloc);
        options::options_are_typed(alloc);
        options::stages_keep_their_types_and_inputs(alloc);
        plans::plans_and_names_are_made(alloc);
    }
}

fn main(rt: HostRuntime) -> ExitCode {
    let alloc = rt.alloc();
    let mut report = Report::new();
    tell_points(&rt, alloc, &mut report);
    tell_stages(&rt, alloc, &mut report);
    tell_filters(&rt, alloc, &mut report);
    tell_pipelines(&rt, alloc, &mut report);
    report.end(&rt)
}
