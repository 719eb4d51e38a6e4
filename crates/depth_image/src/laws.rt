//! What holds of the numbers of a picture.
ghost use Rattle.depth_image.specs.Picture.{FitsWhite};

/// A bound that isn't above the grade's top makes a number that isn't above the picture's greatest.
pub fn shades_fit()
    ensures { FitsWhite }
{}
