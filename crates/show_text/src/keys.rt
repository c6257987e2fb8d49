ghost use Rattle.std.specs.Prelude.{◌≡◌, ◌++◌, OnOk, flat_map};
ghost use Rattle.show_text.specs.Keys.{behind_comma, names_inside, names_text, class_text, index_text, rule_name, is_no_action, rule_text, schema_text, parent_text, rules_text, between, constraint_word, foreign_key_words, references_word, own_columns, references_text, foreign_key_text};

use dd_definitions::{ForeignKeyDef, IndexDef};
use dd_names::{Name, ObjName, Text};
use sql_pieces::push_name;
use sql_types::{FkRule, IndexClass};
use std::alloc::AllocError;

/// An index.
pub fn push_index(out: &mut Text, index: &IndexDef) -> Result<(), AllocError>
    ensures { OnOk result (out.new ≡ out.old ++ index_text index.now) }
{
    push_class(out, index.class, &index.name)?;
    push_names(out, index.columns.as_slice())
}

fn push_class(out: &mut Text, class: IndexClass, name: &Name) -> Result<(), AllocError>
    ensures { OnOk result (out.new ≡ out.old ++ class_text class name.now) }
{
    match class {
        IndexClass::Primary => out.push_str("PRIMARY KEY "),
        IndexClass::Unique => push_between(out, "UNIQUE KEY ", name, " "),
        IndexClass::Plain => push_between(out, "KEY ", name, " "),
    }
}

/// Names between parentheses.
#[tactic(auto, unfolding(crate::specs::Keys::names_text))]
fn push_names(out: &mut Text, names: &[Name]) -> Result<(), AllocError>
    ensures { OnOk result (out.new ≡ out.old ++ names_text names.now) }
{
    out.push_str("(")?;
    push_names_inside(out, names)?;
    out.push_str(")")
}

fn push_names_inside(out: &mut Text, names: &[Name]) -> Result<(), AllocError>
    ensures { OnOk result (out.new ≡ out.old ++ names_inside names.now) }
{
    match names {
        [] => Ok(()),
        [first, others @ ..] => {
            push_name(out, first)?;
            push_behind_commas(out, others)
        }
    }
}

fn push_behind_commas(out: &mut Text, names: &[Name]) -> Result<(), AllocError>
    ensures { OnOk result (out.new ≡ out.old ++ flat_map behind_comma names.now) }
{
    'names: for name in names {
        out.push_str(",")?;
        push_name(out, name)?;
    }
    Ok(())
}

/// A foreign key of a table in the schema.
#[tactic(auto, unfolding(crate::specs::Keys::foreign_key_text))]
pub fn push_foreign_key(
    out: &mut Text,
    schema: &Name,
    key: &ForeignKeyDef,
) -> Result<(), AllocError>
    ensures { OnOk result (out.new ≡ out.old ++ foreign_key_text schema.now key.now) }
{
    push_own_columns(out, key)?;
    push_references(out, schema, key)?;
    push_rules(out, key)
}

fn push_own_columns(out: &mut Text, key: &ForeignKeyDef) -> Result<(), AllocError>
    ensures { OnOk result (out.new ≡ out.old ++ own_columns key.now) }
{
    push_between(out, constraint_word(), &key.name, foreign_key_words())?;
    push_names(out, key.columns.as_slice())
}

#[tactic(auto, unfolding(crate::specs::Keys::constraint_word))]
fn constraint_word() -> &'static str
    ensures { result.now ≡ constraint_word }
{
    "CONSTRAINT "
}

#[tactic(auto, unfolding(crate::specs::Keys::foreign_key_words))]
fn foreign_key_words() -> &'static str
    ensures { result.now ≡ foreign_key_words }
{
    " FOREIGN KEY "
}

#[tactic(auto, unfolding(crate::specs::Keys::references_word))]
fn references_word() -> &'static str
    ensures { result.now ≡ references_word }
{
    " REFERENCES "
}

/// A name between two texts.
#[tactic(auto, unfolding(crate::specs::Keys::between))]
fn push_between(out: &mut Text, front: &str, name: &Name, back: &str) -> Result<(), AllocError>
    ensures { OnOk result (out.new ≡ out.old ++ between front.now name.now back.now) }
{
    out.push_str(front)?;
    push_name(out, name)?;
    out.push_str(back)
}

fn push_references(out: &mut Text, schema: &Name, key: &ForeignKeyDef) -> Result<(), AllocError>
    ensures { OnOk result (out.new ≡ out.old ++ references_text schema.now key.now) }
{
    push_parent(out, references_word(), schema, &key.parent)?;
    push_names(out, key.parent_columns.as_slice())
}

#[tactic(auto, unfolding(crate::specs::Keys::parent_text))]
fn push_parent(
    out: &mut Text,
    front: &str,
    schema: &Name,
    parent: &ObjName,
) -> Result<(), AllocError>
    ensures { OnOk result (out.new ≡ out.old ++ parent_text front.now schema.now parent.now) }
{
    out.push_str(front)?;
    push_schema(out, parent.schema == *schema, &parent.schema)?;
    push_name(out, &parent.name)?;
    out.push_str(" ")
}

fn push_schema(out: &mut Text, same: bool, schema: &Name) -> Result<(), AllocError>
    ensures { OnOk result (out.new ≡ out.old ++ schema_text same schema.now) }
{
    if same {
        return Ok(());
    }
    push_name(out, schema)?;
    out.push_str(".")
}

fn push_rules(out: &mut Text, key: &ForeignKeyDef) -> Result<(), AllocError>
    ensures { OnOk result (out.new ≡ out.old ++ rules_text key.now) }
{
    push_rule(out, " ON DELETE ", key.on_delete)?;
    push_rule(out, " ON UPDATE ", key.on_update)
}

fn push_rule(out: &mut Text, event: &str, rule: FkRule) -> Result<(), AllocError>
    ensures { OnOk result (out.new ≡ out.old ++ rule_text event.now rule) }
{
    if is_no_action(rule) {
        return Ok(());
    }
    out.push_str(event)?;
    out.push_str(rule_name(rule))
}

fn is_no_action(rule: FkRule) -> bool
    ensures { result ≡ is_no_action rule }
{
    match rule {
        FkRule::NoAction => true,
        FkRule::Restrict | FkRule::Cascade | FkRule::SetNull => false,
    }
}

/// The words of a rule, as `ON DELETE` has them.
pub fn rule_name(rule: FkRule) -> &'static str
    ensures { result.now ≡ rule_name rule }
{
    match rule {
        FkRule::NoAction => "NO ACTION",
        FkRule::Restrict => "RESTRICT",
        FkRule::Cascade => "CASCADE",
        FkRule::SetNull => "SET NULL",
    }
}
