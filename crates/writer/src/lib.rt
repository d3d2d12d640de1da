// Writing the text of a policy value into a lent buffer.
#![tactic(auto)]

ghost use Rattle.std.specs.Prelude.{◌≡◌};
ghost use Rattle.policy.specs.Answers.{answer_of};
ghost use Rattle.policy.specs.Write as spec;

use policy::refusal::Refusal;
use policy::value::PolicyValue;

pub mod bytes;
pub mod line;
mod lines;
mod number;
mod whole;
mod word;

// The text of a policy value, put into the buffer where it fits: its length, or the refusal.
pub fn write(v: PolicyValue, buffer: &mut [u8]) -> Result<usize, Refusal>
    ensures answer { answer_of result ≡ spec.write v buffer.old }
    ensures bytes { buffer.new ≡ spec.write_buffer v buffer.old }
{
    if !validity::lent::check(&v) {
        return Err(Refusal::InvalidState);
    }
    if !whole::fits(&v, buffer.len()) {
        return Err(Refusal::BufferTooShort);
    }
    Ok(whole::put(&v, buffer))
}
