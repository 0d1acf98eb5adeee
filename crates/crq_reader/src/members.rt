//! The members of one JSON object.

ghost use Rattle.std.specs.Prelude.{◌≡◌, map};
ghost use Rattle.std.specs.Result.{result_map_both};
ghost use Rattle.serde_json.specs.View.{view};
ghost use Rattle.crq_reader.specs.Drafts.{flaw_seen};
ghost use Rattle.crq_reader.specs.Language as language;

use crate::fault::FaultNumber;
use crate::flaw::Flaw;
use crate::member::Member;
use serde_json::Value;

/// The member, where it is there.
fn found<'v>(value: &'v Value, member: Member) -> Result<&'v Value, Flaw<'v>>
    ensures { result_map_both (λ v. view v.now) flaw_seen result ≡ language.member member (view value.now) }
{
    value
        .get(member.word())
        .ok_or(Flaw::Member(FaultNumber::Missing, member))
}

/// The value of a member as a number without sign, fraction or exponent.
pub fn whole_of(value: &Value, member: Member) -> Result<u64, Flaw<'_>>
    ensures { result_map_both (λ n. n) flaw_seen result ≡ language.whole_of member (view value.now) }
{
    value
        .as_u64()
        .ok_or(Flaw::Member(FaultNumber::WrongKind, member))
}

/// The member as a number without sign, fraction or exponent.
pub fn whole(value: &Value, member: Member) -> Result<u64, Flaw<'_>>
    ensures { result_map_both (λ n. n) flaw_seen result ≡ language.whole member (view value.now) }
{
    let value = found(value, member)?;
    whole_of(value, member)
}

/// The member as a number of ticks.
pub fn tick(value: &Value, member: Member) -> Result<u32, Flaw<'_>>
    ensures { result_map_both (λ n. n) flaw_seen result ≡ language.tick member (view value.now) }
{
    let ticks = whole(value, member)?;
    u32::try_from(ticks).map_err(|_| Flaw::Member(FaultNumber::Range, member))
}

/// The member as a delay that the lookahead allows.
pub fn delay(value: &Value, member: Member, lookahead: u32) -> Result<u32, Flaw<'_>>
    ensures { result_map_both (λ n. n) flaw_seen result ≡ language.delay lookahead member (view value.now) }
{
    let ticks = tick(value, member)?;
    if ticks < lookahead {
        return Err(Flaw::Member(FaultNumber::Lookahead, member));
    }
    Ok(ticks)
}

/// The member as a text.
pub fn text<'v>(value: &'v Value, member: Member) -> Result<&'v str, Flaw<'v>>
    ensures { result_map_both (λ t. t.now) flaw_seen result ≡ language.text member (view value.now) }
{
    let value = found(value, member)?;
    value
        .as_str()
        .ok_or(Flaw::Member(FaultNumber::WrongKind, member))
}

/// The member as the elements of an array.
pub fn list<'v>(value: &'v Value, member: Member) -> Result<&'v [Value], Flaw<'v>>
    ensures { result_map_both (λ s. map view s.now) flaw_seen result ≡ language.list member (view value.now) }
{
    let value = found(value, member)?;
    let values = value
        .as_array()
        .ok_or(Flaw::Member(FaultNumber::WrongKind, member))?;
    Ok(values.as_slice())
}

/// The value, where it is an object.
pub fn must_be_object(value: &Value) -> Result<(), Flaw<'_>>
    ensures { result_map_both (λ _. view value.now) flaw_seen result ≡ language.must_be_object (view value.now) }
{
    if value.is_object() {
        Ok(())
    } else {
        Err(Flaw::Whole(FaultNumber::WrongKind))
    }
}
