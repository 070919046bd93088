// Taking a triple out of the triples of a list, and one off the weight of a summary's line.
#![tactic(auto)]

ghost use Rattle.std.specs.Prelude.{◌*◌, ◌<◌, ◌≤◌, length};
ghost use Rattle.intake_deletion.specs.Deletion.{Deleted, NumberDeleted, Lightened};

use lists::clear;

// Takes the triple at place i out of the first `count`; those behind it move down by one, and the last of these places becomes zero.
pub fn delete_at(list: &mut [u32], count: usize, i: usize)
    requires { (i < count) × (3 * count ≤ length list.old) }
    ensures { Deleted list.old list.new count i }
{
    list.copy_within(3 * i + 3..3 * count, 3 * i);
    clear(list, 3 * count - 3, 3 * count);
}

// The same for numbers.
fn delete_number(list: &mut [u32], count: usize, j: usize)
    requires { (j < count) × (count ≤ length list.old) }
    ensures { NumberDeleted list.old list.new count j }
{
    list.copy_within(j + 1..count, j);
    list[count - 1] = 0;
}

// Takes one off the weight of the line at place j. A line that then stands for no triple goes. Answers the number of lines
// after it.
pub fn lighten(summary: &mut [u32], weights: &mut [u32], count: usize, j: usize) -> usize
    requires { (j < count) × (3 * count ≤ length summary.old) × (count ≤ length weights.old) }
    ensures { Lightened summary.old weights.old count j result summary.new weights.new }
{
    if weights[j] <= 1 {
        delete_at(summary, count, j);
        delete_number(weights, count, j);
        return count - 1;
    }
    weights[j] -= 1;
    count
}
