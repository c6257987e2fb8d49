use dd_errors::SqlError;
use dd_names::{List, Name, NameFault, ObjName, ObjectKey, Text, TryCopy, path_of, temp_path};
use std::alloc::AllocError;
use std::test::Fail;

#[test]
fn names_are_read_or_refused_by_the_first_fault(rt: HostRuntime) -> Result<(), Fail> {
    let cases = [
        ("t", false, None),
        ("12", true, None),
        ("select", false, None),
        ("", false, Some(NameFault::Empty)),
        ("12-", false, Some(NameFault::BadCharacter { at: 2 })),
        ("\u{e9}", true, Some(NameFault::BadCharacter { at: 0 })),
        ("12", false, Some(NameFault::DigitsOnly)),
    ];
    for (text, quoted, want) in cases {
        let read = Name::read(rt.alloc(), text, quoted);
        assert_eq!(rt; read.err(), want, "at {text:?}");
    }
    Ok(())
}

#[test]
#[tactic(auto, unfolding(dd_errors::specs::Errors::form_of))]
fn texts_are_made_where_there_is_memory(rt: HostRuntime) -> Result<(), Fail> {
    let alloc = rt.alloc();
    let schema = Name::read(alloc, "d", false)?;
    let name = Name::read(alloc, "T_1", false)?;
    let object = ObjName { schema, name };
    assert_eq!(rt; object.name.fold()?.as_str(), "t_1");
    assert_eq!(rt; path_of(alloc, &object)?.as_str(), "d/T_1.ibd");
    assert_eq!(rt;
        temp_path(alloc, &object.schema, 7)?.as_str(),
        "d/#sql-ib7.ibd"
    );
    let mut args = List::new(alloc);
    args.push(Text::of(alloc, "t")?)?;
    let error = SqlError::of(1050, args).copy()?;
    assert_eq!(rt; error.text(alloc)?.as_str(), "Table 't' already exists");
    Ok(())
}

fn key_at(place: u32, object: &ObjName) -> Result<ObjectKey, AllocError> {
    let schema = object.schema.copy()?;
    let folded = object.name.copy()?;
    Ok(match place {
        0 => ObjectKey::Schemas,
        1 => ObjectKey::Schema(schema),
        2 => ObjectKey::Objects(schema),
        3 => ObjectKey::Object(object.copy()?),
        4 => ObjectKey::Children(object.copy()?),
        _ => ObjectKey::Constraint { schema, folded },
    })
}

fn is_below(key: &ObjectKey, other: &ObjectKey) -> bool {
    key < other
}

fn is_key_in_order(place: u32, next: u32, object: &ObjName) -> Result<bool, AllocError> {
    let key = key_at(place, object)?;
    let next = key_at(next, object)?;
    Ok(is_below(&key, &next))
}

#[test]
fn keys_are_in_the_order_of_their_kinds(rt: HostRuntime) -> Result<(), Fail> {
    let schema = Name::read(rt.alloc(), "d", false)?;
    let name = Name::read(rt.alloc(), "t", false)?;
    let object = ObjName { schema, name };
    for place in 0..5 {
        assert!(rt; is_key_in_order(place, place + 1, &object)?, "at {place}");
    }
    Ok(())
}
