// Counts of an ingredient.
use node::Fault;
use reading::{CountFault, count};

#[test]
fn every_node_counts(rt: HostRuntime) {
    assert_eq!(rt; count(&[2, 4, 0, 5], 5), Ok(1));
    assert_eq!(rt;
        count(&[1, 2, 1, 4, 0, 5, 3, 0, 1, 4, 1, 5, 4, 0, 5], 5),
        Ok(2)
    );
    assert_eq!(rt;
        count(&[1, 2, 1, 4, 0, 5, 3, 0, 1, 4, 1, 5, 4, 0, 5], 261),
        Ok(1)
    );
    assert_eq!(rt; count(&[4, 0x0F, 0xFF], 4095), Ok(1));
    assert_eq!(rt; count(&[2, 3, 0], 0), Ok(0));
}

#[test]
fn the_ingredient_is_looked_at_first(rt: HostRuntime) {
    assert_eq!(rt; count(&[5], 4096), Err(CountFault::UnknownIngredient));
    assert_eq!(rt;
        count(&[5], 4095),
        Err(CountFault::Code(Fault::UnknownTag { at: 0 }))
    );
    assert_eq!(rt; u8::from(CountFault::UnknownIngredient), 15);
    assert_eq!(rt; u8::from(CountFault::Code(Fault::Leftover { at: 3 })), 7);
}
