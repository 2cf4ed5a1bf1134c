//! Decimals, words and coordinates.

mod coordinates;
mod halves;
mod words;

use check_report::{Report, checks};

/// Tells of the checks of numbers.
pub fn tell(rt: &HostRuntime, report: &mut Report) {
    checks! { rt, report;
        halves::a_half_goes_away_from_zero();
        words::near_gives_the_nearest_word();
        words::decimal_is_short_where_it_can_be();
        words::word_order_grows_with_the_value();
        words::scale_nano_takes_the_word_of_a_scale_alone();
        coordinates::print_fixed_rounds_half_away();
        coordinates::put_fixed_ends_at_its_place();
        coordinates::parse_decimal_reads_decimals_or_names_the_first_fault();
        coordinates::raw_goes_to_the_nearest_step();
        coordinates::real_is_on_the_grid();
    }
}
