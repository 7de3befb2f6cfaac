//! The storage classes (PS3.4 table B.5-1), and those that are retired (PS3.6 annex A), as
//! `tools/storage-classes` writes them.
ghost use Rattle.std.specs.Prelude.{◌≡◌, map};
ghost use Rattle.dictionary.specs.StorageClasses.{parts, part_0, part_1, part_2, part_3, part_4, part_5, part_6, part_7, part_8, part_9, part_10, part_11, part_12};
ghost use Rattle.dictionary.specs.StorageTable.{storage_row};

use crate::storage::StorageClass;

/// The number of parts of the table.
pub(crate) const PARTS: usize = 13;

fn part_0() -> &'static [StorageClass]
    ensures { map storage_row result.now ≡ part_0 }
{
    &[
        StorageClass {
            uid: b"1.2.840.10008.5.1.1.27",
            keyword: "StoredPrintStorage",
            is_image: false,
        },
        StorageClass {
            uid: b"1.2.840.10008.5.1.1.29",
            keyword: "HardcopyGrayscaleImageStorage",
            is_image: true,
        },
        StorageClass {
            uid: b"1.2.840.10008.5.1.1.30",
            keyword: "HardcopyColorImageStorage",
            is_image: true,
        },
        StorageClass {
            uid: b"1.2.840.10008.5.1.4.1.1.1",
            keyword: "ComputedRadiographyImageStorage",
            is_image: true,
        },
        StorageClass {
            uid: b"1.2.840.10008.5.1.4.1.1.1.1",
            keyword: "DigitalXRayImageStorageForPresentation",
            is_image: true,
        },
        StorageClass {
            uid: b"1.2.840.10008.5.1.4.1.1.1.1.1",
            keyword: "DigitalXRayImageStorageForProcessing",
            is_image: true,
        },
        StorageClass {
            uid: b"1.2.840.10008.5.1.4.1.1.1.2",
            keyword: "DigitalMammographyXRayImageStorageForPresentation",
            is_image: true,
        },
        StorageClass {
            uid: b"1.2.840.10008.5.1.4.1.1.1.2.1",
            keyword: "DigitalMammographyXRayImageStorageForProcessing",
            is_image: true,
        },
        StorageClass {
            uid: b"1.2.840.10008.5.1.4.1.1.1.3",
            keyword: "DigitalIntraOralXRayImageStorageForPresentation",
            is_image: true,
        },
        StorageClass {
            uid: b"1.2.840.10008.5.1.4.1.1.1.3.1",
            keyword: "DigitalIntraOralXRayImageStorageForProcessing",
            is_image: true,
        },
        StorageClass {
            uid: b"1.2.840.10008.5.1.4.1.1.2",
            keyword: "CTImageStorage",
            is_image: true,
        },
        StorageClass {
            uid: b"1.2.840.10008.5.1.4.1.1.2.1",
            keyword: "EnhancedCTImageStorage",
            is_image: true,
        },
        StorageClass {
            uid: b"1.2.840.10008.5.1.4.1.1.2.2",
            keyword: "LegacyConvertedEnhancedCTImageStorage",
            is_image: true,
        },
        StorageClass {
            uid: b"1.2.840.10008.5.1.4.1.1.3",
            keyword: "UltrasoundMultiFrameImageStorageRetired",
            is_image: true,
        },
    ]
}

fn part_1() -> &'static [StorageClass]
    ensures { map storage_row result.now ≡ part_1 }
{
    &[
        StorageClass {
            uid: b"1.2.840.10008.5.1.4.1.1.3.1",
            keyword: "UltrasoundMultiFrameImageStorage",
            is_image: true,
        },
        StorageClass {
            uid: b"1.2.840.10008.5.1.4.1.1.4",
            keyword: "MRImageStorage",
            is_image: true,
        },
        StorageClass {
            uid: b"1.2.840.10008.5.1.4.1.1.4.1",
            keyword: "EnhancedMRImageStorage",
            is_image: true,
        },
        StorageClass {
            uid: b"1.2.840.10008.5.1.4.1.1.4.2",
            keyword: "MRSpectroscopyStorage",
            is_image: false,
        },
        StorageClass {
            uid: b"1.2.840.10008.5.1.4.1.1.4.3",
            keyword: "EnhancedMRColorImageStorage",
            is_image: true,
        },
        StorageClass {
            uid: b"1.2.840.10008.5.1.4.1.1.4.4",
            keyword: "LegacyConvertedEnhancedMRImageStorage",
            is_image: true,
        },
        StorageClass {
            uid: b"1.2.840.10008.5.1.4.1.1.5",
            keyword: "NuclearMedicineImageStorageRetired",
            is_image: true,
        },
        StorageClass {
            uid: b"1.2.840.10008.5.1.4.1.1.6",
            keyword: "UltrasoundImageStorageRetired",
            is_image: true,
        },
        StorageClass {
            uid: b"1.2.840.10008.5.1.4.1.1.6.1",
            keyword: "UltrasoundImageStorage",
            is_image: true,
        },
        StorageClass {
            uid: b"1.2.840.10008.5.1.4.1.1.6.2",
            keyword: "EnhancedUSVolumeStorage",
            is_image: true,
        },
        StorageClass {
            uid: b"1.2.840.10008.5.1.4.1.1.7",
            keyword: "SecondaryCaptureImageStorage",
            is_image: true,
        },
        StorageClass {
            uid: b"1.2.840.10008.5.1.4.1.1.7.1",
            keyword: "MultiFrameSingleBitSecondaryCaptureImageStorage",
            is_image: true,
        },
        StorageClass {
            uid: b"1.2.840.10008.5.1.4.1.1.7.2",
            keyword: "MultiFrameGrayscaleByteSecondaryCaptureImageStorage",
            is_image: true,
        },
        StorageClass {
            uid: b"1.2.840.10008.5.1.4.1.1.7.3",
            keyword: "MultiFrameGrayscaleWordSecondaryCaptureImageStorage",
            is_image: true,
        },
    ]
}

fn part_2() -> &'static [StorageClass]
    ensures { map storage_row result.now ≡ part_2 }
{
    &[
        StorageClass {
            uid: b"1.2.840.10008.5.1.4.1.1.7.4",
            keyword: "MultiFrameTrueColorSecondaryCaptureImageStorage",
            is_image: true,
        },
        StorageClass {
            uid: b"1.2.840.10008.5.1.4.1.1.8",
            keyword: "StandaloneOverlayStorage",
            is_image: false,
        },
        StorageClass {
            uid: b"1.2.840.10008.5.1.4.1.1.9",
            keyword: "StandaloneCurveStorage",
            is_image: false,
        },
        StorageClass {
            uid: b"1.2.840.10008.5.1.4.1.1.9.1",
            keyword: "WaveformStorageTrial",
            is_image: false,
        },
        StorageClass {
            uid: b"1.2.840.10008.5.1.4.1.1.9.1.1",
            keyword: "TwelveLeadECGWaveformStorage",
            is_image: false,
        },
        StorageClass {
            uid: b"1.2.840.10008.5.1.4.1.1.9.1.2",
            keyword: "GeneralECGWaveformStorage",
            is_image: false,
        },
        StorageClass {
            uid: b"1.2.840.10008.5.1.4.1.1.9.1.3",
            keyword: "AmbulatoryECGWaveformStorage",
            is_image: false,
        },
        StorageClass {
            uid: b"1.2.840.10008.5.1.4.1.1.9.2.1",
            keyword: "HemodynamicWaveformStorage",
            is_image: false,
        },
        StorageClass {
            uid: b"1.2.840.10008.5.1.4.1.1.9.3.1",
            keyword: "CardiacElectrophysiologyWaveformStorage",
            is_image: false,
        },
        StorageClass {
            uid: b"1.2.840.10008.5.1.4.1.1.9.4.1",
            keyword: "BasicVoiceAudioWaveformStorage",
            is_image: false,
        },
        StorageClass {
            uid: b"1.2.840.10008.5.1.4.1.1.9.4.2",
            keyword: "GeneralAudioWaveformStorage",
            is_image: false,
        },
        StorageClass {
            uid: b"1.2.840.10008.5.1.4.1.1.9.5.1",
            keyword: "ArterialPulseWaveformStorage",
            is_image: false,
        },
        StorageClass {
            uid: b"1.2.840.10008.5.1.4.1.1.9.6.1",
            keyword: "RespiratoryWaveformStorage",
            is_image: false,
        },
        StorageClass {
            uid: b"1.2.840.10008.5.1.4.1.1.9.6.2",
            keyword: "MultichannelRespiratoryWaveformStorage",
            is_image: false,
        },
    ]
}

fn part_3() -> &'static [StorageClass]
    ensures { map storage_row result.now ≡ part_3 }
{
    &[
        StorageClass {
            uid: b"1.2.840.10008.5.1.4.1.1.9.7.1",
            keyword: "RoutineScalpElectroencephalogramWaveformStorage",
            is_image: false,
        },
        StorageClass {
            uid: b"1.2.840.10008.5.1.4.1.1.9.7.2",
            keyword: "ElectromyogramWaveformStorage",
            is_image: false,
        },
        StorageClass {
            uid: b"1.2.840.10008.5.1.4.1.1.9.7.3",
            keyword: "ElectrooculogramWaveformStorage",
            is_image: false,
        },
        StorageClass {
            uid: b"1.2.840.10008.5.1.4.1.1.9.7.4",
            keyword: "SleepElectroencephalogramWaveformStorage",
            is_image: false,
        },
        StorageClass {
            uid: b"1.2.840.10008.5.1.4.1.1.9.8.1",
            keyword: "BodyPositionWaveformStorage",
            is_image: false,
        },
        StorageClass {
            uid: b"1.2.840.10008.5.1.4.1.1.10",
            keyword: "StandaloneModalityLUTStorage",
            is_image: false,
        },
        StorageClass {
            uid: b"1.2.840.10008.5.1.4.1.1.11",
            keyword: "StandaloneVOILUTStorage",
            is_image: false,
        },
        StorageClass {
            uid: b"1.2.840.10008.5.1.4.1.1.11.1",
            keyword: "GrayscaleSoftcopyPresentationStateStorage",
            is_image: false,
        },
        StorageClass {
            uid: b"1.2.840.10008.5.1.4.1.1.11.2",
            keyword: "ColorSoftcopyPresentationStateStorage",
            is_image: false,
        },
        StorageClass {
            uid: b"1.2.840.10008.5.1.4.1.1.11.3",
            keyword: "PseudoColorSoftcopyPresentationStateStorage",
            is_image: false,
        },
        StorageClass {
            uid: b"1.2.840.10008.5.1.4.1.1.11.4",
            keyword: "BlendingSoftcopyPresentationStateStorage",
            is_image: false,
        },
        StorageClass {
            uid: b"1.2.840.10008.5.1.4.1.1.11.5",
            keyword: "XAXRFGrayscaleSoftcopyPresentationStateStorage",
            is_image: false,
        },
        StorageClass {
            uid: b"1.2.840.10008.5.1.4.1.1.11.6",
            keyword: "GrayscalePlanarMPRVolumetricPresentationStateStorage",
            is_image: false,
        },
        StorageClass {
            uid: b"1.2.840.10008.5.1.4.1.1.11.7",
            keyword: "CompositingPlanarMPRVolumetricPresentationStateStorage",
            is_image: false,
        },
    ]
}

fn part_4() -> &'static [StorageClass]
    ensures { map storage_row result.now ≡ part_4 }
{
    &[
        StorageClass {
            uid: b"1.2.840.10008.5.1.4.1.1.11.8",
            keyword: "AdvancedBlendingPresentationStateStorage",
            is_image: false,
        },
        StorageClass {
            uid: b"1.2.840.10008.5.1.4.1.1.11.9",
            keyword: "VolumeRenderingVolumetricPresentationStateStorage",
            is_image: false,
        },
        StorageClass {
            uid: b"1.2.840.10008.5.1.4.1.1.11.10",
            keyword: "SegmentedVolumeRenderingVolumetricPresentationStateStorage",
            is_image: false,
        },
        StorageClass {
            uid: b"1.2.840.10008.5.1.4.1.1.11.11",
            keyword: "MultipleVolumeRenderingVolumetricPresentationStateStorage",
            is_image: false,
        },
        StorageClass {
            uid: b"1.2.840.10008.5.1.4.1.1.12.1",
            keyword: "XRayAngiographicImageStorage",
            is_image: true,
        },
        StorageClass {
            uid: b"1.2.840.10008.5.1.4.1.1.12.1.1",
            keyword: "EnhancedXAImageStorage",
            is_image: true,
        },
        StorageClass {
            uid: b"1.2.840.10008.5.1.4.1.1.12.2",
            keyword: "XRayRadiofluoroscopicImageStorage",
            is_image: true,
        },
        StorageClass {
            uid: b"1.2.840.10008.5.1.4.1.1.12.2.1",
            keyword: "EnhancedXRFImageStorage",
            is_image: true,
        },
        StorageClass {
            uid: b"1.2.840.10008.5.1.4.1.1.12.3",
            keyword: "XRayAngiographicBiPlaneImageStorage",
            is_image: true,
        },
        StorageClass {
            uid: b"1.2.840.10008.5.1.4.1.1.13.1.1",
            keyword: "XRay3DAngiographicImageStorage",
            is_image: true,
        },
        StorageClass {
            uid: b"1.2.840.10008.5.1.4.1.1.13.1.2",
            keyword: "XRay3DCraniofacialImageStorage",
            is_image: true,
        },
        StorageClass {
            uid: b"1.2.840.10008.5.1.4.1.1.13.1.3",
            keyword: "BreastTomosynthesisImageStorage",
            is_image: true,
        },
        StorageClass {
            uid: b"1.2.840.10008.5.1.4.1.1.13.1.4",
            keyword: "BreastProjectionXRayImageStorageForPresentation",
            is_image: true,
        },
        StorageClass {
            uid: b"1.2.840.10008.5.1.4.1.1.13.1.5",
            keyword: "BreastProjectionXRayImageStorageForProcessing",
            is_image: true,
        },
    ]
}

fn part_5() -> &'static [StorageClass]
    ensures { map storage_row result.now ≡ part_5 }
{
    &[
        StorageClass {
            uid: b"1.2.840.10008.5.1.4.1.1.14.1",
            keyword: "IntravascularOpticalCoherenceTomographyImageStorageForPresentation",
            is_image: true,
        },
        StorageClass {
            uid: b"1.2.840.10008.5.1.4.1.1.14.2",
            keyword: "IntravascularOpticalCoherenceTomographyImageStorageForProcessing",
            is_image: true,
        },
        StorageClass {
            uid: b"1.2.840.10008.5.1.4.1.1.20",
            keyword: "NuclearMedicineImageStorage",
            is_image: true,
        },
        StorageClass {
            uid: b"1.2.840.10008.5.1.4.1.1.30",
            keyword: "ParametricMapStorage",
            is_image: true,
        },
        StorageClass {
            uid: b"1.2.840.10008.5.1.4.1.1.66",
            keyword: "RawDataStorage",
            is_image: false,
        },
        StorageClass {
            uid: b"1.2.840.10008.5.1.4.1.1.66.1",
            keyword: "SpatialRegistrationStorage",
            is_image: false,
        },
        StorageClass {
            uid: b"1.2.840.10008.5.1.4.1.1.66.2",
            keyword: "SpatialFiducialsStorage",
            is_image: false,
        },
        StorageClass {
            uid: b"1.2.840.10008.5.1.4.1.1.66.3",
            keyword: "DeformableSpatialRegistrationStorage",
            is_image: false,
        },
        StorageClass {
            uid: b"1.2.840.10008.5.1.4.1.1.66.4",
            keyword: "SegmentationStorage",
            is_image: true,
        },
        StorageClass {
            uid: b"1.2.840.10008.5.1.4.1.1.66.5",
            keyword: "SurfaceSegmentationStorage",
            is_image: false,
        },
        StorageClass {
            uid: b"1.2.840.10008.5.1.4.1.1.66.6",
            keyword: "TractographyResultsStorage",
            is_image: false,
        },
        StorageClass {
            uid: b"1.2.840.10008.5.1.4.1.1.67",
            keyword: "RealWorldValueMappingStorage",
            is_image: false,
        },
        StorageClass {
            uid: b"1.2.840.10008.5.1.4.1.1.68.1",
            keyword: "SurfaceScanMeshStorage",
            is_image: false,
        },
        StorageClass {
            uid: b"1.2.840.10008.5.1.4.1.1.68.2",
            keyword: "SurfaceScanPointCloudStorage",
            is_image: false,
        },
    ]
}

fn part_6() -> &'static [StorageClass]
    ensures { map storage_row result.now ≡ part_6 }
{
    &[
        StorageClass {
            uid: b"1.2.840.10008.5.1.4.1.1.77.1",
            keyword: "VLImageStorageTrial",
            is_image: true,
        },
        StorageClass {
            uid: b"1.2.840.10008.5.1.4.1.1.77.1.1",
            keyword: "VLEndoscopicImageStorage",
            is_image: true,
        },
        StorageClass {
            uid: b"1.2.840.10008.5.1.4.1.1.77.1.1.1",
            keyword: "VideoEndoscopicImageStorage",
            is_image: true,
        },
        StorageClass {
            uid: b"1.2.840.10008.5.1.4.1.1.77.1.2",
            keyword: "VLMicroscopicImageStorage",
            is_image: true,
        },
        StorageClass {
            uid: b"1.2.840.10008.5.1.4.1.1.77.1.2.1",
            keyword: "VideoMicroscopicImageStorage",
            is_image: true,
        },
        StorageClass {
            uid: b"1.2.840.10008.5.1.4.1.1.77.1.3",
            keyword: "VLSlideCoordinatesMicroscopicImageStorage",
            is_image: true,
        },
        StorageClass {
            uid: b"1.2.840.10008.5.1.4.1.1.77.1.4",
            keyword: "VLPhotographicImageStorage",
            is_image: true,
        },
        StorageClass {
            uid: b"1.2.840.10008.5.1.4.1.1.77.1.4.1",
            keyword: "VideoPhotographicImageStorage",
            is_image: true,
        },
        StorageClass {
            uid: b"1.2.840.10008.5.1.4.1.1.77.1.5.1",
            keyword: "OphthalmicPhotography8BitImageStorage",
            is_image: true,
        },
        StorageClass {
            uid: b"1.2.840.10008.5.1.4.1.1.77.1.5.2",
            keyword: "OphthalmicPhotography16BitImageStorage",
            is_image: true,
        },
        StorageClass {
            uid: b"1.2.840.10008.5.1.4.1.1.77.1.5.3",
            keyword: "StereometricRelationshipStorage",
            is_image: false,
        },
        StorageClass {
            uid: b"1.2.840.10008.5.1.4.1.1.77.1.5.4",
            keyword: "OphthalmicTomographyImageStorage",
            is_image: true,
        },
        StorageClass {
            uid: b"1.2.840.10008.5.1.4.1.1.77.1.5.5",
            keyword: "WideFieldOphthalmicPhotographyStereographicProjectionImageStorage",
            is_image: true,
        },
        StorageClass {
            uid: b"1.2.840.10008.5.1.4.1.1.77.1.5.6",
            keyword: "WideFieldOphthalmicPhotography3DCoordinatesImageStorage",
            is_image: true,
        },
    ]
}

fn part_7() -> &'static [StorageClass]
    ensures { map storage_row result.now ≡ part_7 }
{
    &[
        StorageClass {
            uid: b"1.2.840.10008.5.1.4.1.1.77.1.5.7",
            keyword: "OphthalmicOpticalCoherenceTomographyEnFaceImageStorage",
            is_image: true,
        },
        StorageClass {
            uid: b"1.2.840.10008.5.1.4.1.1.77.1.5.8",
            keyword: "OphthalmicOpticalCoherenceTomographyBscanVolumeAnalysisStorage",
            is_image: true,
        },
        StorageClass {
            uid: b"1.2.840.10008.5.1.4.1.1.77.1.6",
            keyword: "VLWholeSlideMicroscopyImageStorage",
            is_image: true,
        },
        StorageClass {
            uid: b"1.2.840.10008.5.1.4.1.1.77.1.7",
            keyword: "DermoscopicPhotographyImageStorage",
            is_image: true,
        },
        StorageClass {
            uid: b"1.2.840.10008.5.1.4.1.1.77.2",
            keyword: "VLMultiFrameImageStorageTrial",
            is_image: true,
        },
        StorageClass {
            uid: b"1.2.840.10008.5.1.4.1.1.78.1",
            keyword: "LensometryMeasurementsStorage",
            is_image: false,
        },
        StorageClass {
            uid: b"1.2.840.10008.5.1.4.1.1.78.2",
            keyword: "AutorefractionMeasurementsStorage",
            is_image: false,
        },
        StorageClass {
            uid: b"1.2.840.10008.5.1.4.1.1.78.3",
            keyword: "KeratometryMeasurementsStorage",
            is_image: false,
        },
        StorageClass {
            uid: b"1.2.840.10008.5.1.4.1.1.78.4",
            keyword: "SubjectiveRefractionMeasurementsStorage",
            is_image: false,
        },
        StorageClass {
            uid: b"1.2.840.10008.5.1.4.1.1.78.5",
            keyword: "VisualAcuityMeasurementsStorage",
            is_image: false,
        },
        StorageClass {
            uid: b"1.2.840.10008.5.1.4.1.1.78.6",
            keyword: "SpectaclePrescriptionReportStorage",
            is_image: false,
        },
        StorageClass {
            uid: b"1.2.840.10008.5.1.4.1.1.78.7",
            keyword: "OphthalmicAxialMeasurementsStorage",
            is_image: false,
        },
        StorageClass {
            uid: b"1.2.840.10008.5.1.4.1.1.78.8",
            keyword: "IntraocularLensCalculationsStorage",
            is_image: false,
        },
        StorageClass {
            uid: b"1.2.840.10008.5.1.4.1.1.79.1",
            keyword: "MacularGridThicknessAndVolumeReportStorage",
            is_image: false,
        },
    ]
}

fn part_8() -> &'static [StorageClass]
    ensures { map storage_row result.now ≡ part_8 }
{
    &[
        StorageClass {
            uid: b"1.2.840.10008.5.1.4.1.1.80.1",
            keyword: "OphthalmicVisualFieldStaticPerimetryMeasurementsStorage",
            is_image: false,
        },
        StorageClass {
            uid: b"1.2.840.10008.5.1.4.1.1.81.1",
            keyword: "OphthalmicThicknessMapStorage",
            is_image: true,
        },
        StorageClass {
            uid: b"1.2.840.10008.5.1.4.1.1.82.1",
            keyword: "CornealTopographyMapStorage",
            is_image: true,
        },
        StorageClass {
            uid: b"1.2.840.10008.5.1.4.1.1.88.1",
            keyword: "TextSRStorageTrial",
            is_image: false,
        },
        StorageClass {
            uid: b"1.2.840.10008.5.1.4.1.1.88.2",
            keyword: "AudioSRStorageTrial",
            is_image: false,
        },
        StorageClass {
            uid: b"1.2.840.10008.5.1.4.1.1.88.3",
            keyword: "DetailSRStorageTrial",
            is_image: false,
        },
        StorageClass {
            uid: b"1.2.840.10008.5.1.4.1.1.88.4",
            keyword: "ComprehensiveSRStorageTrial",
            is_image: false,
        },
        StorageClass {
            uid: b"1.2.840.10008.5.1.4.1.1.88.11",
            keyword: "BasicTextSRStorage",
            is_image: false,
        },
        StorageClass {
            uid: b"1.2.840.10008.5.1.4.1.1.88.22",
            keyword: "EnhancedSRStorage",
            is_image: false,
        },
        StorageClass {
            uid: b"1.2.840.10008.5.1.4.1.1.88.33",
            keyword: "ComprehensiveSRStorage",
            is_image: false,
        },
        StorageClass {
            uid: b"1.2.840.10008.5.1.4.1.1.88.34",
            keyword: "Comprehensive3DSRStorage",
            is_image: false,
        },
        StorageClass {
            uid: b"1.2.840.10008.5.1.4.1.1.88.35",
            keyword: "ExtensibleSRStorage",
            is_image: false,
        },
        StorageClass {
            uid: b"1.2.840.10008.5.1.4.1.1.88.40",
            keyword: "ProcedureLogStorage",
            is_image: false,
        },
        StorageClass {
            uid: b"1.2.840.10008.5.1.4.1.1.88.50",
            keyword: "MammographyCADSRStorage",
            is_image: false,
        },
    ]
}

fn part_9() -> &'static [StorageClass]
    ensures { map storage_row result.now ≡ part_9 }
{
    &[
        StorageClass {
            uid: b"1.2.840.10008.5.1.4.1.1.88.59",
            keyword: "KeyObjectSelectionDocumentStorage",
            is_image: false,
        },
        StorageClass {
            uid: b"1.2.840.10008.5.1.4.1.1.88.65",
            keyword: "ChestCADSRStorage",
            is_image: false,
        },
        StorageClass {
            uid: b"1.2.840.10008.5.1.4.1.1.88.67",
            keyword: "XRayRadiationDoseSRStorage",
            is_image: false,
        },
        StorageClass {
            uid: b"1.2.840.10008.5.1.4.1.1.88.68",
            keyword: "RadiopharmaceuticalRadiationDoseSRStorage",
            is_image: false,
        },
        StorageClass {
            uid: b"1.2.840.10008.5.1.4.1.1.88.69",
            keyword: "ColonCADSRStorage",
            is_image: false,
        },
        StorageClass {
            uid: b"1.2.840.10008.5.1.4.1.1.88.70",
            keyword: "ImplantationPlanSRStorage",
            is_image: false,
        },
        StorageClass {
            uid: b"1.2.840.10008.5.1.4.1.1.88.71",
            keyword: "AcquisitionContextSRStorage",
            is_image: false,
        },
        StorageClass {
            uid: b"1.2.840.10008.5.1.4.1.1.88.72",
            keyword: "SimplifiedAdultEchoSRStorage",
            is_image: false,
        },
        StorageClass {
            uid: b"1.2.840.10008.5.1.4.1.1.88.73",
            keyword: "PatientRadiationDoseSRStorage",
            is_image: false,
        },
        StorageClass {
            uid: b"1.2.840.10008.5.1.4.1.1.88.74",
            keyword: "PlannedImagingAgentAdministrationSRStorage",
            is_image: false,
        },
        StorageClass {
            uid: b"1.2.840.10008.5.1.4.1.1.88.75",
            keyword: "PerformedImagingAgentAdministrationSRStorage",
            is_image: false,
        },
        StorageClass {
            uid: b"1.2.840.10008.5.1.4.1.1.88.76",
            keyword: "EnhancedXRayRadiationDoseSRStorage",
            is_image: false,
        },
        StorageClass {
            uid: b"1.2.840.10008.5.1.4.1.1.90.1",
            keyword: "ContentAssessmentResultsStorage",
            is_image: false,
        },
        StorageClass {
            uid: b"1.2.840.10008.5.1.4.1.1.91.1",
            keyword: "MicroscopyBulkSimpleAnnotationsStorage",
            is_image: false,
        },
    ]
}

fn part_10() -> &'static [StorageClass]
    ensures { map storage_row result.now ≡ part_10 }
{
    &[
        StorageClass {
            uid: b"1.2.840.10008.5.1.4.1.1.104.1",
            keyword: "EncapsulatedPDFStorage",
            is_image: false,
        },
        StorageClass {
            uid: b"1.2.840.10008.5.1.4.1.1.104.2",
            keyword: "EncapsulatedCDAStorage",
            is_image: false,
        },
        StorageClass {
            uid: b"1.2.840.10008.5.1.4.1.1.104.3",
            keyword: "EncapsulatedSTLStorage",
            is_image: false,
        },
        StorageClass {
            uid: b"1.2.840.10008.5.1.4.1.1.104.4",
            keyword: "EncapsulatedOBJStorage",
            is_image: false,
        },
        StorageClass {
            uid: b"1.2.840.10008.5.1.4.1.1.104.5",
            keyword: "EncapsulatedMTLStorage",
            is_image: false,
        },
        StorageClass {
            uid: b"1.2.840.10008.5.1.4.1.1.128",
            keyword: "PositronEmissionTomographyImageStorage",
            is_image: true,
        },
        StorageClass {
            uid: b"1.2.840.10008.5.1.4.1.1.128.1",
            keyword: "LegacyConvertedEnhancedPETImageStorage",
            is_image: true,
        },
        StorageClass {
            uid: b"1.2.840.10008.5.1.4.1.1.129",
            keyword: "StandalonePETCurveStorage",
            is_image: false,
        },
        StorageClass {
            uid: b"1.2.840.10008.5.1.4.1.1.130",
            keyword: "EnhancedPETImageStorage",
            is_image: true,
        },
        StorageClass {
            uid: b"1.2.840.10008.5.1.4.1.1.131",
            keyword: "BasicStructuredDisplayStorage",
            is_image: false,
        },
        StorageClass {
            uid: b"1.2.840.10008.5.1.4.1.1.200.2",
            keyword: "CTPerformedProcedureProtocolStorage",
            is_image: false,
        },
        StorageClass {
            uid: b"1.2.840.10008.5.1.4.1.1.200.8",
            keyword: "XAPerformedProcedureProtocolStorage",
            is_image: false,
        },
        StorageClass {
            uid: b"1.2.840.10008.5.1.4.1.1.481.1",
            keyword: "RTImageStorage",
            is_image: true,
        },
        StorageClass {
            uid: b"1.2.840.10008.5.1.4.1.1.481.2",
            keyword: "RTDoseStorage",
            is_image: false,
        },
    ]
}

fn part_11() -> &'static [StorageClass]
    ensures { map storage_row result.now ≡ part_11 }
{
    &[
        StorageClass {
            uid: b"1.2.840.10008.5.1.4.1.1.481.3",
            keyword: "RTStructureSetStorage",
            is_image: false,
        },
        StorageClass {
            uid: b"1.2.840.10008.5.1.4.1.1.481.4",
            keyword: "RTBeamsTreatmentRecordStorage",
            is_image: false,
        },
        StorageClass {
            uid: b"1.2.840.10008.5.1.4.1.1.481.5",
            keyword: "RTPlanStorage",
            is_image: false,
        },
        StorageClass {
            uid: b"1.2.840.10008.5.1.4.1.1.481.6",
            keyword: "RTBrachyTreatmentRecordStorage",
            is_image: false,
        },
        StorageClass {
            uid: b"1.2.840.10008.5.1.4.1.1.481.7",
            keyword: "RTTreatmentSummaryRecordStorage",
            is_image: false,
        },
        StorageClass {
            uid: b"1.2.840.10008.5.1.4.1.1.481.8",
            keyword: "RTIonPlanStorage",
            is_image: false,
        },
        StorageClass {
            uid: b"1.2.840.10008.5.1.4.1.1.481.9",
            keyword: "RTIonBeamsTreatmentRecordStorage",
            is_image: false,
        },
        StorageClass {
            uid: b"1.2.840.10008.5.1.4.1.1.481.10",
            keyword: "RTPhysicianIntentStorage",
            is_image: false,
        },
        StorageClass {
            uid: b"1.2.840.10008.5.1.4.1.1.481.11",
            keyword: "RTSegmentAnnotationStorage",
            is_image: false,
        },
        StorageClass {
            uid: b"1.2.840.10008.5.1.4.1.1.481.12",
            keyword: "RTRadiationSetStorage",
            is_image: false,
        },
        StorageClass {
            uid: b"1.2.840.10008.5.1.4.1.1.481.13",
            keyword: "CArmPhotonElectronRadiationStorage",
            is_image: false,
        },
        StorageClass {
            uid: b"1.2.840.10008.5.1.4.1.1.481.14",
            keyword: "TomotherapeuticRadiationStorage",
            is_image: false,
        },
        StorageClass {
            uid: b"1.2.840.10008.5.1.4.1.1.481.15",
            keyword: "RoboticArmRadiationStorage",
            is_image: false,
        },
        StorageClass {
            uid: b"1.2.840.10008.5.1.4.1.1.481.16",
            keyword: "RTRadiationRecordSetStorage",
            is_image: false,
        },
    ]
}

fn part_12() -> &'static [StorageClass]
    ensures { map storage_row result.now ≡ part_12 }
{
    &[
        StorageClass {
            uid: b"1.2.840.10008.5.1.4.1.1.481.17",
            keyword: "RTRadiationSalvageRecordStorage",
            is_image: false,
        },
        StorageClass {
            uid: b"1.2.840.10008.5.1.4.1.1.481.18",
            keyword: "TomotherapeuticRadiationRecordStorage",
            is_image: false,
        },
        StorageClass {
            uid: b"1.2.840.10008.5.1.4.1.1.481.19",
            keyword: "CArmPhotonElectronRadiationRecordStorage",
            is_image: false,
        },
        StorageClass {
            uid: b"1.2.840.10008.5.1.4.1.1.481.20",
            keyword: "RoboticRadiationRecordStorage",
            is_image: false,
        },
        StorageClass {
            uid: b"1.2.840.10008.5.1.4.1.1.481.21",
            keyword: "RTRadiationSetDeliveryInstructionStorage",
            is_image: false,
        },
        StorageClass {
            uid: b"1.2.840.10008.5.1.4.1.1.481.22",
            keyword: "RTTreatmentPreparationStorage",
            is_image: false,
        },
        StorageClass {
            uid: b"1.2.840.10008.5.1.4.34.1",
            keyword: "RTBeamsDeliveryInstructionStorageTrial",
            is_image: false,
        },
        StorageClass {
            uid: b"1.2.840.10008.5.1.4.34.7",
            keyword: "RTBeamsDeliveryInstructionStorage",
            is_image: false,
        },
        StorageClass {
            uid: b"1.2.840.10008.5.1.4.34.10",
            keyword: "RTBrachyApplicationSetupDeliveryInstructionStorage",
            is_image: false,
        },
    ]
}

/// Returns the table, part by part.
pub(crate) fn table_parts() -> [&'static [StorageClass]; PARTS]
    ensures { map (λ rows. map storage_row rows.now) result ≡ parts }
{
    [
        part_0(),
        part_1(),
        part_2(),
        part_3(),
        part_4(),
        part_5(),
        part_6(),
        part_7(),
        part_8(),
        part_9(),
        part_10(),
        part_11(),
        part_12(),
    ]
}
