//! The words of pointers, and the limits of shapes.

use pgas_base::{Ptr, Shape, ShapeFault};

#[test]
fn words_and_pointers_agree(rt: HostRuntime) {
    let rows = [
        (Ptr::new(2, 5, 7), 0x0200_0005_0000_0007),
        (Ptr::new(0, 1, 0), 0x0000_0001_0000_0000),
        (Ptr::new(15, 0xff_ffff, u32::MAX), 0x0fff_ffff_ffff_ffff),
    ];
    for (pointer, word) in rows {
        assert_eq!(rt; pointer.word(), word, "{pointer:?}");
        assert_eq!(rt; Ptr::of_word(word), Some(pointer), "{word:x}");
    }
    for word in [0, 7, 0x0f00_0000_0000_0001, 0x1000_0001_0000_0000, u64::MAX] {
        assert_eq!(rt; Ptr::of_word(word), None, "{word:x}");
    }
}

const fn shape(locales: u8, tokens: u32, objects: u32, width: u32) -> Shape {
    Shape {
        locales,
        tokens,
        objects,
        width,
    }
}

#[test]
fn names_the_first_limit_that_is_broken(rt: HostRuntime) {
    let rows = [
        (shape(1, 1, 1, 2), Ok(())),
        (shape(16, 1024, 270, 4096), Ok(())),
        (shape(0, 1, 1, 2), Err(ShapeFault::Locales)),
        (shape(16, 1, 1, 2), Ok(())),
        (shape(17, 1, 1, 2), Err(ShapeFault::Locales)),
        (shape(1, 0, 1, 2), Err(ShapeFault::Tokens)),
        (shape(1, 1024, 1, 2), Ok(())),
        (shape(1, 1025, 1, 2), Err(ShapeFault::Tokens)),
        (shape(1, 1, 0, 2), Err(ShapeFault::Objects)),
        (shape(1, 1, 1_048_576, 2), Ok(())),
        (shape(1, 1, 1_048_577, 2), Err(ShapeFault::Objects)),
        (shape(1, 1, 1, 1), Err(ShapeFault::Width)),
        (shape(1, 1, 1, 4096), Ok(())),
        (shape(1, 1, 1, 4097), Err(ShapeFault::Width)),
        (shape(1, 1, 8192, 4094), Ok(())),
        (shape(1, 1, 8192, 4095), Err(ShapeFault::Words)),
        (shape(8, 1, 1_048_576, 2), Ok(())),
        (shape(9, 1, 1_048_576, 2), Err(ShapeFault::Words)),
        (shape(0, 0, 0, 0), Err(ShapeFault::Locales)),
        (shape(1, 0, 0, 0), Err(ShapeFault::Tokens)),
        (shape(1, 1, 0, 0), Err(ShapeFault::Objects)),
        (shape(16, 1024, 1_048_576, 0), Err(ShapeFault::Width)),
        (shape(16, 1024, 1_048_576, 4096), Err(ShapeFault::Words)),
        (
            shape(u8::MAX, u32::MAX, u32::MAX, u32::MAX),
            Err(ShapeFault::Locales),
        ),
        (
            shape(16, 1024, u32::MAX, u32::MAX),
            Err(ShapeFault::Objects),
        ),
    ];
    for (shape, want) in rows {
        assert_eq!(rt; shape.check(), want, "{shape:?}");
    }
}
