//! The first notes of variables, among notes that may repeat one.
//!
//! A pass over notes drops those that repeat a variable, since the first one tells what range it had. It is made
//! before each join, and once the notes of a list are more than twice as many as the variables.
ghost use Rattle.std.specs.Prelude.{◌≡◌, ◌≤◌, length, take, List};
ghost use Rattle.interval_num.specs.Intervals.{Interval};
ghost use Rattle.interval_analysis.specs.private.Notes.{AreDistinct, ArePlaced, FirstAnswer, taken_back};

use crate::branches::Change;

/// Brings the first note of each variable to the front, in their order, and answers how many these are: what ranges were before
/// is told by these alone. `places` has room for each variable.
pub(crate) fn first_notes(notes: &mut [Change], places: &mut [usize]) -> usize
    ensures within { result ≤ length notes.new }
    ensures back { (ranges : List Interval) → length ranges ≤ length places.old
        → taken_back ranges (take result notes.new) ≡ taken_back ranges notes.old }
    ensures distinct { AreDistinct (take result notes.new) }
{
    let mut count = 0;
    for at in 0..notes.len() {
        let note = notes[at];
        if is_first(&notes[..count], places, note.number) {
            places[note.number] = count;
            notes[count] = note;
            count += 1;
        }
    }
    count
}

/// Whether these notes have none of a variable, where each stands at its variable's place.
fn is_first(notes: &[Change], places: &[usize], number: usize) -> bool
    requires { ArePlaced 0 places.now notes.now }
    ensures { FirstAnswer places.now notes.now number result }
{
    if number >= places.len() {
        return false;
    }
    let place = places[number];
    if place >= notes.len() {
        return true;
    }
    notes[place].number != number
}
