//! The parts of lists and objects, by the tokens of a map file.
ghost use Rattle.std.specs.Prelude.{◌≡◌, ◌<◌, ℕ, List, ◌∷◌, length, Some, None, IfOk, OnOk};
ghost use Rattle.json.specs.Token.{begin_array, begin_object, end_array, number};
ghost use Rattle.json.specs.Json.{read_key, value};
ghost use Rattle.serde_json.specs.Read.{of_json, converted};
ghost use Rattle.serde_json.specs.View.{view};
ghost use Rattle.dwc_map.specs.ByTokens.{IsNumber, Tells};
ghost use Rattle.dwc_map.specs.MapValues.{i64_of};

use crate::json_fields::signed_number;
use crate::stop::Stop;
use crate::tokens::{number_of, whole_of};
use json::{Reader, Token};
use serde_json::Value;

/// Takes the bracket that opens a list.
#[inline(always)]
pub(crate) fn begin_list(reader: &mut Reader<'_>) -> Result<(), Stop>
    ensures { OnOk result (reader.old ≡ begin_array ∷ reader.new) }
{
    match reader.next() {
        Some(Token::BeginArray) => Ok(()),
        _ => Err(Stop::Unusual),
    }
}

/// Takes the bracket that closes a list.
#[inline(always)]
pub(crate) fn end_list(reader: &mut Reader<'_>) -> Result<(), Stop>
    ensures { OnOk result (reader.old ≡ end_array ∷ reader.new) }
{
    if reader.take_end_array() {
        Ok(())
    } else {
        Err(Stop::Unusual)
    }
}

/// Takes the brace that opens an object.
pub(crate) fn begin_object(reader: &mut Reader<'_>) -> Result<(), Stop>
    ensures { OnOk result (reader.old ≡ begin_object ∷ reader.new) }
{
    match reader.next() {
        Some(Token::BeginObject) => Ok(()),
        _ => Err(Stop::Unusual),
    }
}

/// Takes the brace that closes an object.
pub(crate) fn end_object(reader: &mut Reader<'_>) -> Result<(), Stop>
    ensures { OnOk result (read_key reader.old ≡ Some (None, reader.new)) }
{
    match reader.next_key()? {
        None => Ok(()),
        Some(_) => Err(Stop::Unusual),
    }
}

/// Takes the name of a member.
pub(crate) fn take_name(reader: &mut Reader<'_>, name: &str) -> Result<(), Stop>
    ensures { OnOk result (read_key reader.old ≡ Some (Some name.now, reader.new)) }
{
    let Some(found) = reader.next_key()? else {
        return Err(Stop::Unusual);
    };
    if found != name {
        return Err(Stop::Unusual);
    }
    Ok(())
}

/// The whole number below 2^32 that a text writes.
#[inline(always)]
pub(crate) fn number_in(text: &str) -> Result<u32, Stop>
    ensures { IfOk result (λ n. IsNumber text.now n) }
{
    match whole_of(text) {
        Some(number) if number <= u64::from(u32::MAX) => Ok(number as u32),
        _ => Err(Stop::Unusual),
    }
}

/// Takes a whole number below 2^32.
#[inline(always)]
pub(crate) fn read_number(reader: &mut Reader<'_>) -> Result<u32, Stop>
    ensures { IfOk result (λ n. (s : List ℕ) × (reader.old ≡ number s ∷ reader.new) × IsNumber s n) }
{
    match reader.next() {
        Some(Token::Number(text)) => number_in(text),
        _ => Err(Stop::Unusual),
    }
}

/// Takes a whole number of 64 bits, as a value.
pub(crate) fn read_whole(reader: &mut Reader<'_>) -> Result<Value, Stop>
    ensures told { IfOk result (λ v. (depth : ℕ) → converted of_json (value depth reader.old) ≡ Some (view v, reader.new)) }
    ensures shorter { OnOk result (length reader.new < length reader.old) }
{
    let Some(Token::Number(text)) = reader.next() else {
        return Err(Stop::Unusual);
    };
    match number_of(text) {
        Some(number) => Ok(Value::Number(number)),
        None => Err(Stop::Unusual),
    }
}

/// Takes a whole number of 64 bits with a sign.
pub(crate) fn read_signed(reader: &mut Reader<'_>) -> Result<i64, Stop>
    ensures told { IfOk result (λ z. (depth : ℕ) → Tells depth i64_of reader.old z reader.new) }
    ensures shorter { OnOk result (length reader.new < length reader.old) }
{
    let number = read_whole(reader)?;
    match signed_number(&number) {
        Some(number) => Ok(number),
        None => Err(Stop::Unusual),
    }
}
