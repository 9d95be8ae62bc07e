//! Objects and arrays of JSON, of what is put one after another.
ghost use Rattle.std.specs.Prelude.{◌≡◌, IfOk};
ghost use Rattle.serde_json.specs.Data.{no_members, object};
ghost use Rattle.serde_json.specs.View.{view};
ghost use Rattle.slo_manifest.specs.Members.{array_of, field_json, with_fields};

use gate_base::Memory;
use serde_json::{Map, ToValue, Value, put};
use std::alloc::Global;

/// A member: its name, and what it says.
#[derive(Clone, Copy)]
pub struct Member<'a> {
    pub name: &'a str,
    pub field: Field<'a>,
}

/// What a member of an object, or an item of an array, says.
#[derive(Clone, Copy)]
pub enum Field<'a> {
    Text(&'a str),
    Number(u64),
    Json(&'a Value),
}

/// The object that has these members. Of those with one name the last counts.
#[tactic(auto, using(crate::proofs::Fields::fields_more))]
pub fn json_object(alloc: Global, members: &[Member<'_>]) -> Result<Value, Memory>
    ensures { IfOk result (λ value. view value ≡ object (with_fields members.now no_members)) }
{
    let mut map = Map::new(alloc);
    for member in members {
        put(
            &mut map,
            alloc,
            member.name,
            field_json(alloc, &member.field)?,
        )?;
    }
    Ok(Value::Object(map))
}

/// The array of what these say.
#[tactic(auto, using(crate::proofs::ListLemmas::map_more))]
pub fn json_array(alloc: Global, fields: &[Field<'_>]) -> Result<Value, Memory>
    ensures { IfOk result (λ value. view value ≡ array_of field_json fields.now) }
{
    let mut values = Vec::new(alloc);
    for field in fields {
        values.push(field_json(alloc, field)?)?;
    }
    Ok(Value::Array(values))
}

fn field_json(alloc: Global, field: &Field<'_>) -> Result<Value, Memory>
    ensures { IfOk result (λ value. view value ≡ field_json field.now) }
{
    match field {
        Field::Text(text) => Ok(text.to_value(alloc)?),
        Field::Number(number) => Ok(Value::from(*number)),
        Field::Json(value) => Ok(value.to_value(alloc)?),
    }
}
