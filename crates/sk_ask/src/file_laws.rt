//! Laws of what files stand for. No program calls these functions: the contract of each is the law.
ghost use Rattle.sk_ask.specs.Images.{ImageIsItsFilter};

/// The chain that is read from the image of a profile's filter is exactly its instructions.
pub fn image_is_its_filter()
    ensures law { ImageIsItsFilter }
{}
