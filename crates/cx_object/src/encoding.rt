ghost use Rattle.std.specs.Prelude.{◌≡◌, ◌<◌, ◌≤◌, ◌^◌, ◌∷◌, [], ◌++◌, length, sum_by, IfOk, OnOk, IfSome};
ghost use Rattle.std.specs.List.{All};
ghost use Rattle.cx_code.specs.declared.object.Object.{Object};
ghost use Rattle.cx_code.specs.declared.object.UnitFunction.{UnitFunction};
ghost use Rattle.cx_code.specs.Spelling.{number, list, text};
ghost use Rattle.cx_code.specs.ObjectSpelling.{unit_type, global_state, unit_global, form_code, definition_text, form_body, function_body, no_body, unit_function, object_spelling};
ghost use Rattle.cx_code.specs.Storable.{IsShort};
ghost use Rattle.cx_code.specs.ObjectStorable.{body_of, instruction_count, IsStorableObject, IsStorableUnitType, IsStorableUnitGlobal, IsStorableUnitFunction};

use cx_code::{
    FunctionBody, FunctionForm, GlobalState, Object, UnitFunction, UnitGlobal, UnitType,
};
use cx_fields::{
    put_assertions, put_code, put_count, put_flag, put_initial, put_number, put_regions, put_text,
    put_texts,
};
use cx_outside::{NoMemory, Text};
use std::alloc::Global;

/// The bytes of an object file: each field in its order, with the high byte of each number first. An object has one
/// spelling. `NoMemory` for want of memory alone. (The format is this project's own.)
#[tactic(auto, unfolding(cx_code::specs::ObjectSpelling::object_spelling))]
pub fn encode(alloc: Global, object: &Object) -> Result<Text, NoMemory>
    requires { IsStorableObject object.now }
    ensures { IfOk result (λ bytes. bytes ≡ object_spelling object.now) }
{
    let mut out = Text::new(alloc);
    out.append(b"CXOB")?;
    out.push(1)?;
    put_text(&mut out, object.unit.bytes())?;
    put_texts(&mut out, object.texts.items())?;
    put_types(&mut out, object)?;
    put_globals(&mut out, object.globals.items())?;
    put_functions(&mut out, object)?;
    put_assertions(&mut out, object.assertions.items())?;
    Ok(out)
}

fn put_type(out: &mut Text, entry: &UnitType) -> Result<(), NoMemory>
    requires { IsShort entry.now.name × IsShort entry.now.definition }
    ensures { OnOk result (out.new ≡ out.old ++ unit_type entry.now) }
{
    put_text(out, entry.name.bytes())?;
    put_text(out, entry.definition.bytes())?;
    put_number(out, entry.leaves)?;
    put_number(out, entry.dropper)
}

fn put_types(out: &mut Text, object: &Object) -> Result<(), NoMemory>
    requires count { length object.now.types < 2 ^ 32 }
    requires each { All (IsStorableUnitType object.now) object.now.types }
    ensures { OnOk result (out.new ≡ out.old ++ list unit_type object.now.types) }
{
    let types = object.types.items();
    put_count(out, types.len())?;
    for item in types {
        put_type(out, item)?;
    }
    Ok(())
}

fn put_no_value(out: &mut Text, defined: u8) -> Result<(), NoMemory>
    ensures { OnOk result (out.new ≡ out.old ++ ((defined ∷ []) ++ (0 ∷ []) ++ number 0 ++ number 0)) }
{
    out.push(defined)?;
    out.push(0)?;
    put_number(out, 0)?;
    put_number(out, 0)
}

fn put_state(out: &mut Text, state: GlobalState) -> Result<(), NoMemory>
    ensures { OnOk result (out.new ≡ out.old ++ global_state state) }
{
    match state {
        GlobalState::Named => put_no_value(out, 0),
        GlobalState::Declared => put_no_value(out, 2),
        GlobalState::Defined(value) => {
            out.push(1)?;
            put_initial(out, value)
        }
    }
}

fn put_global(out: &mut Text, entry: &UnitGlobal) -> Result<(), NoMemory>
    requires { IsStorableUnitGlobal entry.now }
    ensures { OnOk result (out.new ≡ out.old ++ unit_global entry.now) }
{
    put_text(out, entry.name.bytes())?;
    put_text(out, entry.type_name.bytes())?;
    put_state(out, entry.state)
}

fn put_globals(out: &mut Text, globals: &[UnitGlobal]) -> Result<(), NoMemory>
    requires count { length globals.now < 2 ^ 32 }
    requires each { All IsStorableUnitGlobal globals.now }
    ensures { OnOk result (out.new ≡ out.old ++ list unit_global globals.now) }
{
    put_count(out, globals.len())?;
    for item in globals {
        put_global(out, item)?;
    }
    Ok(())
}

fn put_body(out: &mut Text, body: &FunctionBody) -> Result<(), NoMemory>
    requires { (length body.now.code < 2 ^ 32) × (length body.now.regions < 2 ^ 32) }
    ensures { OnOk result (out.new ≡ out.old ++ function_body body.now) }
{
    put_flag(out, body.counted)?;
    put_number(out, body.parameters)?;
    put_number(out, body.slots)?;
    put_flag(out, body.result)?;
    put_code(out, body.code.items())?;
    put_regions(out, body.regions.items())?;
    Ok(())
}

fn put_no_body(out: &mut Text) -> Result<(), NoMemory>
    ensures { OnOk result (out.new ≡ out.old ++ no_body) }
{
    put_flag(out, false)?;
    put_number(out, 0)?;
    put_number(out, 0)?;
    put_flag(out, false)?;
    put_number(out, 0)?;
    put_number(out, 0)
}

fn form_number(form: &FunctionForm) -> u8
    ensures { result ≡ form_code form.now }
{
    match form {
        FunctionForm::Needed => 0,
        FunctionForm::Defined(_) => 1,
        FunctionForm::Inline(..) => 2,
        FunctionForm::Helper(_) => 3,
        FunctionForm::Declared => 4,
    }
}

fn put_form(out: &mut Text, form: &FunctionForm) -> Result<(), NoMemory>
    requires definition { IsShort (definition_text form.now) }
    requires body { IfSome (body_of form.now) (λ body. (length body.code < 2 ^ 32) × (length body.regions < 2 ^ 32)) }
    ensures { OnOk result (out.new ≡ out.old ++ (text (definition_text form.now) ++ form_body form.now)) }
{
    match form {
        FunctionForm::Needed | FunctionForm::Declared => {
            put_count(out, 0)?;
            put_no_body(out)
        }
        FunctionForm::Defined(body) | FunctionForm::Helper(body) => {
            put_count(out, 0)?;
            put_body(out, body)
        }
        FunctionForm::Inline(tokens, body) => {
            put_text(out, tokens.bytes())?;
            put_body(out, body)
        }
    }
}

fn put_function(out: &mut Text, object: &Object, f: &UnitFunction) -> Result<(), NoMemory>
    requires storable { IsStorableUnitFunction object.now f.now }
    requires code { instruction_count f.now.form ≤ 8388608 }
    ensures { OnOk result (out.new ≡ out.old ++ unit_function f.now) }
{
    put_text(out, f.name.bytes())?;
    out.push(form_number(&f.form))?;
    put_text(out, f.signature.bytes())?;
    put_text(out, f.specifiers.bytes())?;
    put_form(out, &f.form)
}

fn put_functions(out: &mut Text, object: &Object) -> Result<(), NoMemory>
    requires count { length object.now.functions < 2 ^ 32 }
    requires each { All (IsStorableUnitFunction object.now) object.now.functions }
    requires code { sum_by (λ (f : UnitFunction). instruction_count f.form) object.now.functions ≤ 8388608 }
    ensures { OnOk result (out.new ≡ out.old ++ list unit_function object.now.functions) }
{
    let functions = object.functions.items();
    put_count(out, functions.len())?;
    for item in functions {
        put_function(out, object, item)?;
    }
    Ok(())
}
