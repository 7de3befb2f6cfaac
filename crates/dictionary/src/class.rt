//! The SOP classes that the receiver accepts without configuration.
ghost use Rattle.std.specs.Prelude.{◌≡◌};
ghost use Rattle.std.specs.List.{find};
ghost use Rattle.dictionary.specs.Classes as table;

use element::unpadded;

/// A SOP class that the receiver accepts without configuration: Verification, or one of eleven
/// storage classes (PS3.4 sections A.4 and B.5, PS3.6 annex A).
#[derive(Clone, Copy, Debug, PartialEq, Eq)]
pub enum Class {
    /// Verification, the SOP class of C-ECHO.
    Verification,
    /// Computed Radiography Image Storage.
    ComputedRadiography,
    /// Digital X-Ray Image Storage, for presentation.
    DigitalXRay,
    /// CT Image Storage.
    Ct,
    /// Enhanced CT Image Storage.
    EnhancedCt,
    /// MR Image Storage.
    Mr,
    /// Enhanced MR Image Storage.
    EnhancedMr,
    /// Ultrasound Image Storage.
    Ultrasound,
    /// Secondary Capture Image Storage.
    SecondaryCapture,
    /// X-Ray Angiographic Image Storage.
    XRayAngiographic,
    /// Nuclear Medicine Image Storage.
    NuclearMedicine,
    /// Positron Emission Tomography Image Storage.
    Pet,
}

impl Class {
    const ALL: [Class; 12] = [
        Class::Verification,
        Class::ComputedRadiography,
        Class::DigitalXRay,
        Class::Ct,
        Class::EnhancedCt,
        Class::Mr,
        Class::EnhancedMr,
        Class::Ultrasound,
        Class::SecondaryCapture,
        Class::XRayAngiographic,
        Class::NuclearMedicine,
        Class::Pet,
    ];

    /// Returns the SOP Class UID.
    pub fn uid(self) -> &'static [u8]
        ensures { result.now ≡ table.class_uid self }
    {
        match self {
            Class::Verification => b"1.2.840.10008.1.1",
            Class::ComputedRadiography => b"1.2.840.10008.5.1.4.1.1.1",
            Class::DigitalXRay => b"1.2.840.10008.5.1.4.1.1.1.1",
            Class::Ct => b"1.2.840.10008.5.1.4.1.1.2",
            Class::EnhancedCt => b"1.2.840.10008.5.1.4.1.1.2.1",
            Class::Mr => b"1.2.840.10008.5.1.4.1.1.4",
            Class::EnhancedMr => b"1.2.840.10008.5.1.4.1.1.4.1",
            Class::Ultrasound => b"1.2.840.10008.5.1.4.1.1.6.1",
            Class::SecondaryCapture => b"1.2.840.10008.5.1.4.1.1.7",
            Class::XRayAngiographic => b"1.2.840.10008.5.1.4.1.1.12.1",
            Class::NuclearMedicine => b"1.2.840.10008.5.1.4.1.1.20",
            Class::Pet => b"1.2.840.10008.5.1.4.1.1.128",
        }
    }

    /// Returns whether this is a storage class.
    pub fn is_storage(self) -> bool
        ensures { result ≡ table.is_storage self }
    {
        self != Class::Verification
    }
}

fn first_named(classes: &[Class], text: &[u8]) -> Option<Class>
    ensures { result ≡ find (table.is_named text.now) classes.now }
{
    classes.iter().copied().find(|class| class.uid() == text)
}

/// Returns the variant with this UID, or `None` if there is none. Ignores trailing spaces and zero
/// bytes.
pub fn class_of(bytes: &[u8]) -> Option<Class>
    ensures { result ≡ table.class_of bytes.now }
{
    first_named(&Class::ALL, unpadded(bytes))
}
