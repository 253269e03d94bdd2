ghost use Rattle.std.specs.Prelude.{◌≡◌, ◌+◌, ◌≤◌, ◌<◌, ◌^◌, All, length};
ghost use Rattle.bl_layout.specs.Identifiers.{IsFirstDuplicate, number_of_member};

use bl_format::MemberEntry;

/// The first member whose identifier stood before in its struct, or how many members there are.
/// `marks` has, by an identifier's number, a number that is `mark` where it was seen in this struct.
pub fn first_duplicate(
    members: &[MemberEntry],
    identifiers: &[u32],
    marks: &mut [u32],
    mark: u32,
) -> usize
    requires fresh { All (λ m. m < mark) marks.old }
    requires names { All (λ m. m.name_number < length identifiers.now) members.now }
    requires inside { All (λ n. n < length marks.old) identifiers.now }
    ensures first { IsFirstDuplicate identifiers.now members.now result }
    ensures marked { All (λ m. m ≤ mark) marks.new }
{
    for (k, member) in members.iter().enumerate() {
        let number = identifiers[member.name_number as usize] as usize;
        if marks[number] == mark {
            return k;
        }
        marks[number] = mark;
    }
    members.len()
}
