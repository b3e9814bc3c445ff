//! Laws of the image of a function.
ghost use Rattle.static_image.specs.Laws.{ImagesKeepRules};

/// The image keeps the rules of images.
pub fn images_keep_rules()
    ensures { ImagesKeepRules }
{}
