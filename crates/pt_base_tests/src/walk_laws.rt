//! The laws of the walk: each is a function that does nothing, and that anyone can call.
use pt_walk::laws;

#[test]
fn each_law_of_the_walk_can_be_called() {
    laws::pair_finds_as_last();
    laws::starts_with_the_top();
    laws::enters_the_next_site();
    laws::passes_the_next_site();
    laws::passes_non_shorties();
    laws::leaves_the_site();
    laws::ends_with_the_top();
    laws::starts_with_the_object();
    laws::starts_with_the_gathered();
    laws::reads_the_next_file();
    laws::meets_the_next_other();
    laws::enters_the_next_directory();
    laws::passes_the_next_shorty();
    laws::leaves_the_directory();
    laws::ends_with_the_object();
    laws::fits_when_entered();
    laws::fits_when_moved();
    laws::directory_is_there();
    laws::file_is_there();
    laws::listing_is_there();
    laws::path_grows();
    laws::holds_what_is_listed();
    laws::candidate_is_the_only_non_shorty();
    laws::interior_holds_shorties();
    laws::last_name_says_where();
    laws::counts_in_turn();
    laws::looks_behind_good_entries();
    laws::good_entries_grow();
    laws::bad_entry_is_first();
    laws::splits_at_the_first_bad();
    laws::path_splits();
    laws::path_has_a_name_for_each();
    laws::files_part_in_order();
    laws::gathered_is_proper();
    laws::reads_below_a_directory();
    laws::listed_sites_are_reached();
    laws::reached_sites_are_listed();
}
