// Short codes, and what the reading says of them.
use node::Fault;
use reading::read;

// The size of a code's term, or its fault.
pub(crate) fn read_size(code: &[u8]) -> Result<u16, Fault> {
    read(&mut (), code)
}

#[test]
fn first_fault_decides(rt: HostRuntime) {
    assert_eq!(rt; read_size(&[]), Err(Fault::Missing { at: 0 }));
    assert_eq!(rt; read_size(&[5]), Err(Fault::UnknownTag { at: 0 }));
    assert_eq!(rt; read_size(&[2, 3, 1]), Err(Fault::Uncovered { at: 1 }));
    assert_eq!(rt;
        read_size(&[4, 0x10, 0]),
        Err(Fault::NoSuchIngredient { at: 0 })
    );
    assert_eq!(rt; read_size(&[2, 3, 0, 0]), Err(Fault::Leftover { at: 3 }));
    assert_eq!(rt; read_size(&[1, 4, 0, 5]), Err(Fault::Missing { at: 4 }));
    assert_eq!(rt; read_size(&[1, 4, 0]), Err(Fault::Missing { at: 3 }));
    assert_eq!(rt; read_size(&[2, 3]), Err(Fault::Missing { at: 2 }));
    assert_eq!(rt; read_size(&[1, 3, 0, 5]), Err(Fault::Uncovered { at: 1 }));
}

#[test]
fn recipes_are_accepted(rt: HostRuntime) {
    assert_eq!(rt; read_size(&[4, 0x0F, 0xFF]), Ok(1));
    assert_eq!(rt; read_size(&[1, 2, 3, 0, 4, 0, 5]), Ok(4));
    assert_eq!(rt; read_size(&[2, 2, 1, 3, 1, 3, 0]), Ok(5));
}

#[test]
fn faults_have_their_numbers(rt: HostRuntime) {
    assert_eq!(rt; u8::from(Fault::Missing { at: 0 }), 1);
    assert_eq!(rt; u8::from(Fault::UnknownTag { at: 0 }), 2);
    assert_eq!(rt; u8::from(Fault::TooManyNodes { at: 0 }), 3);
    assert_eq!(rt; u8::from(Fault::TooDeep { at: 0 }), 4);
    assert_eq!(rt; u8::from(Fault::Uncovered { at: 0 }), 5);
    assert_eq!(rt; u8::from(Fault::NoSuchIngredient { at: 0 }), 6);
    assert_eq!(rt; u8::from(Fault::Leftover { at: 0 }), 7);
}
