// The whole text of a policy value, put at the start of a buffer.
ghost use Rattle.std.specs.Prelude.{◌≡◌, ◌≤◌, leb, length};
ghost use Rattle.policy.specs.Limits.{text_bytes};
ghost use Rattle.policy.specs.Text.{text_of};
ghost use Rattle.policy.specs.Value.{policy_of};
ghost use Rattle.writer.specs.Inner.Put.{Room, Put};
ghost use Rattle.writer.specs.Inner.Whole.{Writable, sides_text, lists_text};

use crate::line;
use crate::lines::put_each;
use policy::limits::TEXT_BYTES;
use policy::value::PolicyValue;
use text::kind;

// The form and the sides, from the policy line to the osen lines.
fn put_sides(v: &PolicyValue, buf: &mut [u8]) -> usize
    requires can { Writable v.now }
    requires room { Room (sides_text v.now) 0 buf.old }
    ensures { Put (sides_text v.now) 0 buf.old buf.new result }
{
    let user = &v.user;
    let object = &v.object;
    let mut at = line::put(&kind::POLICY, &[v.form], buf);
    at = put_each(&kind::UATTR, &user.widths[..user.attributes], buf, at);
    at = put_each(&kind::OATTR, &object.widths[..object.attributes], buf, at);
    at = put_each(&kind::USEN, &user.seniority[..user.lines], buf, at);
    put_each(&kind::OSEN, &object.seniority[..object.lines], buf, at)
}

// The registers, the conflicts, the rules and the pairs, from the user lines to the end line.
fn put_lists(v: &PolicyValue, buf: &mut [u8], start: usize) -> usize
    requires can { Writable v.now }
    requires room { Room (lists_text v.now) start buf.old }
    ensures { Put (lists_text v.now) start buf.old buf.new result }
{
    let mut at = start;
    at = put_each(&kind::USER, &v.users.entries[..v.users.count], buf, at);
    at = put_each(
        &kind::OBJECT,
        &v.objects.entries[..v.objects.count],
        buf,
        at,
    );
    at = put_each(
        &kind::CONFLICT,
        &v.conflicts.entries[..v.conflicts.count],
        buf,
        at,
    );
    at = put_each(&kind::RULE, &v.rules.entries[..v.rules.count], buf, at);
    at = put_each(&kind::PAIR, &v.pairs.entries[..v.pairs.count], buf, at);
    at + line::put(&kind::END, &[], &mut buf[at..])
}

// The text of v.
pub fn put(v: &PolicyValue, buf: &mut [u8]) -> usize
    requires can { Writable v.now }
    requires room { Room (text_of (policy_of v.now)) 0 buf.old }
    ensures { Put (text_of (policy_of v.now)) 0 buf.old buf.new result }
{
    let at = put_sides(v, buf);
    put_lists(v, buf, at)
}

// The length of the text of v, found by putting it into a buffer of the greatest length.
fn measure(v: &PolicyValue) -> usize
    requires can { Writable v.now }
    requires short { length (text_of (policy_of v.now)) ≤ text_bytes }
    ensures { result ≡ length (text_of (policy_of v.now)) }
{
    let mut scratch = [0u8; TEXT_BYTES];
    put(v, &mut scratch)
}

// Whether the text of v fits into so many bytes. The longest text of all needs no measuring.
pub fn fits(v: &PolicyValue, room: usize) -> bool
    requires can { Writable v.now }
    requires short { length (text_of (policy_of v.now)) ≤ text_bytes }
    ensures { result ≡ leb (length (text_of (policy_of v.now))) room }
{
    TEXT_BYTES <= room || measure(v) <= room
}
