// Images: the check at its edges, and the cells of an image of three elements.
use plant::{Element, Image, Refusal, Table};

#[test]
fn an_empty_image_has_no_elements(rt: HostRuntime) {
    assert_eq!(rt; Image::check(&[0, 0]), Ok(0));
    let mut bytes = [0, 0];
    let mut image = Image::open(&mut bytes);
    assert_eq!(rt; image.get(Element(0)), Err(Refusal::NoSuchElement));
    assert_eq!(rt; image.put(Element(0), 0), Err(Refusal::NoSuchElement));
}

#[test]
fn too_few_bytes_are_no_image(rt: HostRuntime) {
    assert_eq!(rt; Image::check(&[]), Err(Refusal::BadImage));
    assert_eq!(rt; Image::check(&[0]), Err(Refusal::BadImage));
}

#[test]
fn the_length_fits_the_count_exactly(rt: HostRuntime) {
    assert_eq!(rt; Image::check(&[0, 1, 0]), Err(Refusal::BadImage));
    assert_eq!(rt; Image::check(&[0, 1, 0, 0]), Ok(1));
    assert_eq!(rt; Image::check(&[0, 1, 0, 0, 0]), Err(Refusal::BadImage));
}

#[test]
fn at_most_256_elements(rt: HostRuntime) {
    assert_eq!(rt; Image::check(&[1, 0]), Err(Refusal::BadImage));
    let mut largest = [0; 514];
    largest[0] = 1;
    assert_eq!(rt; Image::check(&largest), Ok(256));
    let mut larger = [0; 516];
    larger[0] = 1;
    larger[1] = 1;
    assert_eq!(rt;
        Image::check(&larger),
        Err(Refusal::BadImage),
        "257 elements"
    );
    let mut widest = [0; 131_072];
    widest[0] = 255;
    widest[1] = 255;
    assert_eq!(rt;
        Image::check(&widest),
        Err(Refusal::BadImage),
        "65,535 elements"
    );
}

#[test]
fn the_last_of_256_elements(rt: HostRuntime) {
    let mut bytes = [0; 514];
    bytes[0] = 1;
    {
        let mut image = Image::open(&mut bytes);
        assert_eq!(rt; image.count(), 256);
        assert_eq!(rt; image.put(Element(255), -2), Ok(()));
        assert_eq!(rt; image.get(Element(255)), Ok(-2));
        assert_eq!(rt; image.put(Element(256), -2), Err(Refusal::NoSuchElement));
    }
    assert!(rt; bytes[512] == 255 && bytes[513] == 254 && bytes[511] == 0);
}

#[test]
fn cells_hold_sixteen_signed_bits(rt: HostRuntime) {
    let mut bytes = [0, 3, 0x80, 0x00, 0x7F, 0xFF, 0x01, 0xE0];
    {
        let mut image = Image::open(&mut bytes);
        assert_eq!(rt; image.get(Element(0)), Ok(-32_768));
        assert_eq!(rt; image.get(Element(1)), Ok(32_767));
        assert_eq!(rt; image.get(Element(2)), Ok(480));
        assert_eq!(rt;
            image.put(Element(0), 32_768),
            Err(Refusal::NumberOutsideLimits)
        );
        assert_eq!(rt;
            image.put(Element(0), -32_769),
            Err(Refusal::NumberOutsideLimits)
        );
        assert_eq!(rt; image.put(Element(0), 32_767), Ok(()));
        assert_eq!(rt; image.put(Element(1), -32_768), Ok(()));
    }
    assert!(rt; bytes == [0, 3, 0x7F, 0xFF, 0x80, 0x00, 0x01, 0xE0]);
}

#[test]
fn a_bad_image_is_never_written(rt: HostRuntime) {
    let mut bytes = [0, 2, 0, 7, 0];
    {
        let mut image = Image::open(&mut bytes);
        assert_eq!(rt; image.count(), 0);
        assert_eq!(rt; image.put(Element(0), 9), Err(Refusal::NoSuchElement));
    }
    assert!(rt; bytes == [0, 2, 0, 7, 0]);
}
