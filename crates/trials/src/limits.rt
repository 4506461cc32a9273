// Codes at the limits of a recipe, and one node past them.
use crate::codes::read_size;
use node::Fault;

// 4,096 nodes in 8,192 bytes, the longest code that there is: a function, 2,047 applications, 2,048 ingredients.
fn largest() -> [u8; 8192] {
    let mut code = [1; 8192];
    code[0] = 2;
    for ingredient in code[2048..].chunks_exact_mut(3) {
        ingredient.copy_from_slice(&[4, 0, 5]);
    }
    code
}

// One function more round the same; `tag` begins its last node, number 4,097, at byte 8,190.
fn too_large(tag: u8) -> [u8; 8193] {
    let mut code = [2; 8193];
    code[1..8193].copy_from_slice(&largest());
    code[8190] = tag;
    code
}

#[test]
fn nodes_are_limited(rt: HostRuntime) {
    assert_eq!(rt; read_size(&largest()), Ok(4096));
    assert_eq!(rt;
        read_size(&too_large(4)),
        Err(Fault::TooManyNodes { at: 8190 })
    );
}

#[test]
fn node_4097_is_too_many_even_cut_short(rt: HostRuntime) {
    assert_eq!(rt;
        read_size(&too_large(4)[0..8192]),
        Err(Fault::TooManyNodes { at: 8190 })
    );
    assert_eq!(rt;
        read_size(&too_large(4)[0..8191]),
        Err(Fault::TooManyNodes { at: 8190 })
    );
    assert_eq!(rt;
        read_size(&too_large(3)[0..8191]),
        Err(Fault::TooManyNodes { at: 8190 })
    );
}

#[test]
fn a_tag_comes_before_the_limit(rt: HostRuntime) {
    assert_eq!(rt;
        read_size(&too_large(4)[0..8190]),
        Err(Fault::Missing { at: 8190 })
    );
    assert_eq!(rt;
        read_size(&too_large(9)),
        Err(Fault::UnknownTag { at: 8190 })
    );
}

#[test]
fn functions_nest_128_deep(rt: HostRuntime) {
    let mut code = [2; 132];
    code[128..131].copy_from_slice(&[4, 0, 5]);
    assert_eq!(rt; read_size(&code[0..131]), Ok(129));
    code[128] = 2;
    code[129..132].copy_from_slice(&[4, 0, 5]);
    assert_eq!(rt; read_size(&code), Err(Fault::TooDeep { at: 128 }));
    assert_eq!(rt; read_size(&code[0..129]), Err(Fault::TooDeep { at: 128 }));
}
