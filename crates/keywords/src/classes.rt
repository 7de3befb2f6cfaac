//! The keywords of SOP classes (PS3.6 annex A). Made by tools/keywords.
use super::{Row, keyword_in};

/// Returns the keyword of the UID whose part after `1.2.840.10008.` is `rest`.
pub(super) fn keyword(rest: &[u8]) -> Option<&'static str> {
    if let Some(keyword) = part_1(rest) {
        return Some(keyword);
    }
    if let Some(keyword) = part_2(rest) {
        return Some(keyword);
    }
    if let Some(keyword) = part_3(rest) {
        return Some(keyword);
    }
    if let Some(keyword) = part_4(rest) {
        return Some(keyword);
    }
    if let Some(keyword) = part_5(rest) {
        return Some(keyword);
    }
    if let Some(keyword) = part_6(rest) {
        return Some(keyword);
    }
    if let Some(keyword) = part_7(rest) {
        return Some(keyword);
    }
    if let Some(keyword) = part_8(rest) {
        return Some(keyword);
    }
    if let Some(keyword) = part_9(rest) {
        return Some(keyword);
    }
    if let Some(keyword) = part_10(rest) {
        return Some(keyword);
    }
    if let Some(keyword) = part_11(rest) {
        return Some(keyword);
    }
    if let Some(keyword) = part_12(rest) {
        return Some(keyword);
    }
    if let Some(keyword) = part_13(rest) {
        return Some(keyword);
    }
    None
}

fn part_1(rest: &[u8]) -> Option<&'static str> {
    keyword_in(PART_1, rest)
}

const PART_1: &[Row] = &[
    ("1.1", "Verification"),
    ("1.3.10", "MediaStorageDirectoryStorage"),
    ("1.9", "BasicStudyContentNotification"),
    ("1.20.1", "StorageCommitmentPushModel"),
    ("1.20.2", "StorageCommitmentPullModel"),
    ("1.40", "ProceduralEventLogging"),
    ("1.42", "SubstanceAdministrationLogging"),
    ("3.1.2.1.1", "DetachedPatientManagement"),
    ("3.1.2.1.4", "DetachedPatientManagementMeta"),
    ("3.1.2.2.1", "DetachedVisitManagement"),
    ("3.1.2.3.1", "DetachedStudyManagement"),
    ("3.1.2.3.2", "StudyComponentManagement"),
    ("3.1.2.3.3", "ModalityPerformedProcedureStep"),
    ("3.1.2.3.4", "ModalityPerformedProcedureStepRetrieve"),
    ("3.1.2.3.5", "ModalityPerformedProcedureStepNotification"),
    ("3.1.2.5.1", "DetachedResultsManagement"),
    ("3.1.2.5.4", "DetachedResultsManagementMeta"),
    ("3.1.2.5.5", "DetachedStudyManagementMeta"),
    ("3.1.2.6.1", "DetachedInterpretationManagement"),
    ("5.1.1.1", "BasicFilmSession"),
    ("5.1.1.2", "BasicFilmBox"),
    ("5.1.1.4", "BasicGrayscaleImageBox"),
    ("5.1.1.4.1", "BasicColorImageBox"),
    ("5.1.1.4.2", "ReferencedImageBox"),
];

fn part_2(rest: &[u8]) -> Option<&'static str> {
    keyword_in(PART_2, rest)
}

const PART_2: &[Row] = &[
    ("5.1.1.9", "BasicGrayscalePrintManagementMeta"),
    ("5.1.1.9.1", "ReferencedGrayscalePrintManagementMeta"),
    ("5.1.1.14", "PrintJob"),
    ("5.1.1.15", "BasicAnnotationBox"),
    ("5.1.1.16", "Printer"),
    ("5.1.1.16.376", "PrinterConfigurationRetrieval"),
    ("5.1.1.18", "BasicColorPrintManagementMeta"),
    ("5.1.1.18.1", "ReferencedColorPrintManagementMeta"),
    ("5.1.1.22", "VOILUTBox"),
    ("5.1.1.23", "PresentationLUT"),
    ("5.1.1.24", "ImageOverlayBox"),
    ("5.1.1.24.1", "BasicPrintImageOverlayBox"),
    ("5.1.1.26", "PrintQueueManagement"),
    ("5.1.1.27", "StoredPrintStorage"),
    ("5.1.1.29", "HardcopyGrayscaleImageStorage"),
    ("5.1.1.30", "HardcopyColorImageStorage"),
    ("5.1.1.31", "PullPrintRequest"),
    ("5.1.1.32", "PullStoredPrintManagementMeta"),
    ("5.1.1.33", "MediaCreationManagement"),
    ("5.1.1.40", "DisplaySystem"),
    ("5.1.4.1.1.1", "ComputedRadiographyImageStorage"),
    ("5.1.4.1.1.1.1", "DigitalXRayImageStorageForPresentation"),
    ("5.1.4.1.1.1.1.1", "DigitalXRayImageStorageForProcessing"),
    (
        "5.1.4.1.1.1.2",
        "DigitalMammographyXRayImageStorageForPresentation",
    ),
];

fn part_3(rest: &[u8]) -> Option<&'static str> {
    keyword_in(PART_3, rest)
}

const PART_3: &[Row] = &[
    (
        "5.1.4.1.1.1.2.1",
        "DigitalMammographyXRayImageStorageForProcessing",
    ),
    (
        "5.1.4.1.1.1.3",
        "DigitalIntraOralXRayImageStorageForPresentation",
    ),
    (
        "5.1.4.1.1.1.3.1",
        "DigitalIntraOralXRayImageStorageForProcessing",
    ),
    ("5.1.4.1.1.2", "CTImageStorage"),
    ("5.1.4.1.1.2.1", "EnhancedCTImageStorage"),
    ("5.1.4.1.1.2.2", "LegacyConvertedEnhancedCTImageStorage"),
    ("5.1.4.1.1.3", "UltrasoundMultiFrameImageStorageRetired"),
    ("5.1.4.1.1.3.1", "UltrasoundMultiFrameImageStorage"),
    ("5.1.4.1.1.4", "MRImageStorage"),
    ("5.1.4.1.1.4.1", "EnhancedMRImageStorage"),
    ("5.1.4.1.1.4.2", "MRSpectroscopyStorage"),
    ("5.1.4.1.1.4.3", "EnhancedMRColorImageStorage"),
    ("5.1.4.1.1.4.4", "LegacyConvertedEnhancedMRImageStorage"),
    ("5.1.4.1.1.5", "NuclearMedicineImageStorageRetired"),
    ("5.1.4.1.1.6", "UltrasoundImageStorageRetired"),
    ("5.1.4.1.1.6.1", "UltrasoundImageStorage"),
    ("5.1.4.1.1.6.2", "EnhancedUSVolumeStorage"),
    ("5.1.4.1.1.7", "SecondaryCaptureImageStorage"),
    (
        "5.1.4.1.1.7.1",
        "MultiFrameSingleBitSecondaryCaptureImageStorage",
    ),
    (
        "5.1.4.1.1.7.2",
        "MultiFrameGrayscaleByteSecondaryCaptureImageStorage",
    ),
    (
        "5.1.4.1.1.7.3",
        "MultiFrameGrayscaleWordSecondaryCaptureImageStorage",
    ),
    (
        "5.1.4.1.1.7.4",
        "MultiFrameTrueColorSecondaryCaptureImageStorage",
    ),
    ("5.1.4.1.1.8", "StandaloneOverlayStorage"),
    ("5.1.4.1.1.9", "StandaloneCurveStorage"),
];

fn part_4(rest: &[u8]) -> Option<&'static str> {
    keyword_in(PART_4, rest)
}

const PART_4: &[Row] = &[
    ("5.1.4.1.1.9.1", "WaveformStorageTrial"),
    ("5.1.4.1.1.9.1.1", "TwelveLeadECGWaveformStorage"),
    ("5.1.4.1.1.9.1.2", "GeneralECGWaveformStorage"),
    ("5.1.4.1.1.9.1.3", "AmbulatoryECGWaveformStorage"),
    ("5.1.4.1.1.9.2.1", "HemodynamicWaveformStorage"),
    ("5.1.4.1.1.9.3.1", "CardiacElectrophysiologyWaveformStorage"),
    ("5.1.4.1.1.9.4.1", "BasicVoiceAudioWaveformStorage"),
    ("5.1.4.1.1.9.4.2", "GeneralAudioWaveformStorage"),
    ("5.1.4.1.1.9.5.1", "ArterialPulseWaveformStorage"),
    ("5.1.4.1.1.9.6.1", "RespiratoryWaveformStorage"),
    ("5.1.4.1.1.9.6.2", "MultichannelRespiratoryWaveformStorage"),
    (
        "5.1.4.1.1.9.7.1",
        "RoutineScalpElectroencephalogramWaveformStorage",
    ),
    ("5.1.4.1.1.9.7.2", "ElectromyogramWaveformStorage"),
    ("5.1.4.1.1.9.7.3", "ElectrooculogramWaveformStorage"),
    (
        "5.1.4.1.1.9.7.4",
        "SleepElectroencephalogramWaveformStorage",
    ),
    ("5.1.4.1.1.9.8.1", "BodyPositionWaveformStorage"),
    ("5.1.4.1.1.10", "StandaloneModalityLUTStorage"),
    ("5.1.4.1.1.11", "StandaloneVOILUTStorage"),
    (
        "5.1.4.1.1.11.1",
        "GrayscaleSoftcopyPresentationStateStorage",
    ),
    ("5.1.4.1.1.11.2", "ColorSoftcopyPresentationStateStorage"),
    (
        "5.1.4.1.1.11.3",
        "PseudoColorSoftcopyPresentationStateStorage",
    ),
    ("5.1.4.1.1.11.4", "BlendingSoftcopyPresentationStateStorage"),
    (
        "5.1.4.1.1.11.5",
        "XAXRFGrayscaleSoftcopyPresentationStateStorage",
    ),
    (
        "5.1.4.1.1.11.6",
        "GrayscalePlanarMPRVolumetricPresentationStateStorage",
    ),
];

fn part_5(rest: &[u8]) -> Option<&'static str> {
    keyword_in(PART_5, rest)
}

const PART_5: &[Row] = &[
    (
        "5.1.4.1.1.11.7",
        "CompositingPlanarMPRVolumetricPresentationStateStorage",
    ),
    ("5.1.4.1.1.11.8", "AdvancedBlendingPresentationStateStorage"),
    (
        "5.1.4.1.1.11.9",
        "VolumeRenderingVolumetricPresentationStateStorage",
    ),
    (
        "5.1.4.1.1.11.10",
        "SegmentedVolumeRenderingVolumetricPresentationStateStorage",
    ),
    (
        "5.1.4.1.1.11.11",
        "MultipleVolumeRenderingVolumetricPresentationStateStorage",
    ),
    ("5.1.4.1.1.12.1", "XRayAngiographicImageStorage"),
    ("5.1.4.1.1.12.1.1", "EnhancedXAImageStorage"),
    ("5.1.4.1.1.12.2", "XRayRadiofluoroscopicImageStorage"),
    ("5.1.4.1.1.12.2.1", "EnhancedXRFImageStorage"),
    ("5.1.4.1.1.12.3", "XRayAngiographicBiPlaneImageStorage"),
    ("5.1.4.1.1.13.1.1", "XRay3DAngiographicImageStorage"),
    ("5.1.4.1.1.13.1.2", "XRay3DCraniofacialImageStorage"),
    ("5.1.4.1.1.13.1.3", "BreastTomosynthesisImageStorage"),
    (
        "5.1.4.1.1.13.1.4",
        "BreastProjectionXRayImageStorageForPresentation",
    ),
    (
        "5.1.4.1.1.13.1.5",
        "BreastProjectionXRayImageStorageForProcessing",
    ),
    (
        "5.1.4.1.1.14.1",
        "IntravascularOpticalCoherenceTomographyImageStorageForPresentation",
    ),
    (
        "5.1.4.1.1.14.2",
        "IntravascularOpticalCoherenceTomographyImageStorageForProcessing",
    ),
    ("5.1.4.1.1.20", "NuclearMedicineImageStorage"),
    ("5.1.4.1.1.30", "ParametricMapStorage"),
    ("5.1.4.1.1.66", "RawDataStorage"),
    ("5.1.4.1.1.66.1", "SpatialRegistrationStorage"),
    ("5.1.4.1.1.66.2", "SpatialFiducialsStorage"),
    ("5.1.4.1.1.66.3", "DeformableSpatialRegistrationStorage"),
    ("5.1.4.1.1.66.4", "SegmentationStorage"),
];

fn part_6(rest: &[u8]) -> Option<&'static str> {
    keyword_in(PART_6, rest)
}

const PART_6: &[Row] = &[
    ("5.1.4.1.1.66.5", "SurfaceSegmentationStorage"),
    ("5.1.4.1.1.66.6", "TractographyResultsStorage"),
    ("5.1.4.1.1.67", "RealWorldValueMappingStorage"),
    ("5.1.4.1.1.68.1", "SurfaceScanMeshStorage"),
    ("5.1.4.1.1.68.2", "SurfaceScanPointCloudStorage"),
    ("5.1.4.1.1.77.1", "VLImageStorageTrial"),
    ("5.1.4.1.1.77.1.1", "VLEndoscopicImageStorage"),
    ("5.1.4.1.1.77.1.1.1", "VideoEndoscopicImageStorage"),
    ("5.1.4.1.1.77.1.2", "VLMicroscopicImageStorage"),
    ("5.1.4.1.1.77.1.2.1", "VideoMicroscopicImageStorage"),
    (
        "5.1.4.1.1.77.1.3",
        "VLSlideCoordinatesMicroscopicImageStorage",
    ),
    ("5.1.4.1.1.77.1.4", "VLPhotographicImageStorage"),
    ("5.1.4.1.1.77.1.4.1", "VideoPhotographicImageStorage"),
    (
        "5.1.4.1.1.77.1.5.1",
        "OphthalmicPhotography8BitImageStorage",
    ),
    (
        "5.1.4.1.1.77.1.5.2",
        "OphthalmicPhotography16BitImageStorage",
    ),
    ("5.1.4.1.1.77.1.5.3", "StereometricRelationshipStorage"),
    ("5.1.4.1.1.77.1.5.4", "OphthalmicTomographyImageStorage"),
    (
        "5.1.4.1.1.77.1.5.5",
        "WideFieldOphthalmicPhotographyStereographicProjectionImageStorage",
    ),
    (
        "5.1.4.1.1.77.1.5.6",
        "WideFieldOphthalmicPhotography3DCoordinatesImageStorage",
    ),
    (
        "5.1.4.1.1.77.1.5.7",
        "OphthalmicOpticalCoherenceTomographyEnFaceImageStorage",
    ),
    (
        "5.1.4.1.1.77.1.5.8",
        "OphthalmicOpticalCoherenceTomographyBscanVolumeAnalysisStorage",
    ),
    ("5.1.4.1.1.77.1.6", "VLWholeSlideMicroscopyImageStorage"),
    ("5.1.4.1.1.77.1.7", "DermoscopicPhotographyImageStorage"),
    ("5.1.4.1.1.77.2", "VLMultiFrameImageStorageTrial"),
];

fn part_7(rest: &[u8]) -> Option<&'static str> {
    keyword_in(PART_7, rest)
}

const PART_7: &[Row] = &[
    ("5.1.4.1.1.78.1", "LensometryMeasurementsStorage"),
    ("5.1.4.1.1.78.2", "AutorefractionMeasurementsStorage"),
    ("5.1.4.1.1.78.3", "KeratometryMeasurementsStorage"),
    ("5.1.4.1.1.78.4", "SubjectiveRefractionMeasurementsStorage"),
    ("5.1.4.1.1.78.5", "VisualAcuityMeasurementsStorage"),
    ("5.1.4.1.1.78.6", "SpectaclePrescriptionReportStorage"),
    ("5.1.4.1.1.78.7", "OphthalmicAxialMeasurementsStorage"),
    ("5.1.4.1.1.78.8", "IntraocularLensCalculationsStorage"),
    (
        "5.1.4.1.1.79.1",
        "MacularGridThicknessAndVolumeReportStorage",
    ),
    (
        "5.1.4.1.1.80.1",
        "OphthalmicVisualFieldStaticPerimetryMeasurementsStorage",
    ),
    ("5.1.4.1.1.81.1", "OphthalmicThicknessMapStorage"),
    ("5.1.4.1.1.82.1", "CornealTopographyMapStorage"),
    ("5.1.4.1.1.88.1", "TextSRStorageTrial"),
    ("5.1.4.1.1.88.2", "AudioSRStorageTrial"),
    ("5.1.4.1.1.88.3", "DetailSRStorageTrial"),
    ("5.1.4.1.1.88.4", "ComprehensiveSRStorageTrial"),
    ("5.1.4.1.1.88.11", "BasicTextSRStorage"),
    ("5.1.4.1.1.88.22", "EnhancedSRStorage"),
    ("5.1.4.1.1.88.33", "ComprehensiveSRStorage"),
    ("5.1.4.1.1.88.34", "Comprehensive3DSRStorage"),
    ("5.1.4.1.1.88.35", "ExtensibleSRStorage"),
    ("5.1.4.1.1.88.40", "ProcedureLogStorage"),
    ("5.1.4.1.1.88.50", "MammographyCADSRStorage"),
    ("5.1.4.1.1.88.59", "KeyObjectSelectionDocumentStorage"),
];

fn part_8(rest: &[u8]) -> Option<&'static str> {
    keyword_in(PART_8, rest)
}

const PART_8: &[Row] = &[
    ("5.1.4.1.1.88.65", "ChestCADSRStorage"),
    ("5.1.4.1.1.88.67", "XRayRadiationDoseSRStorage"),
    (
        "5.1.4.1.1.88.68",
        "RadiopharmaceuticalRadiationDoseSRStorage",
    ),
    ("5.1.4.1.1.88.69", "ColonCADSRStorage"),
    ("5.1.4.1.1.88.70", "ImplantationPlanSRStorage"),
    ("5.1.4.1.1.88.71", "AcquisitionContextSRStorage"),
    ("5.1.4.1.1.88.72", "SimplifiedAdultEchoSRStorage"),
    ("5.1.4.1.1.88.73", "PatientRadiationDoseSRStorage"),
    (
        "5.1.4.1.1.88.74",
        "PlannedImagingAgentAdministrationSRStorage",
    ),
    (
        "5.1.4.1.1.88.75",
        "PerformedImagingAgentAdministrationSRStorage",
    ),
    ("5.1.4.1.1.88.76", "EnhancedXRayRadiationDoseSRStorage"),
    ("5.1.4.1.1.90.1", "ContentAssessmentResultsStorage"),
    ("5.1.4.1.1.91.1", "MicroscopyBulkSimpleAnnotationsStorage"),
    ("5.1.4.1.1.104.1", "EncapsulatedPDFStorage"),
    ("5.1.4.1.1.104.2", "EncapsulatedCDAStorage"),
    ("5.1.4.1.1.104.3", "EncapsulatedSTLStorage"),
    ("5.1.4.1.1.104.4", "EncapsulatedOBJStorage"),
    ("5.1.4.1.1.104.5", "EncapsulatedMTLStorage"),
    ("5.1.4.1.1.128", "PositronEmissionTomographyImageStorage"),
    ("5.1.4.1.1.128.1", "LegacyConvertedEnhancedPETImageStorage"),
    ("5.1.4.1.1.129", "StandalonePETCurveStorage"),
    ("5.1.4.1.1.130", "EnhancedPETImageStorage"),
    ("5.1.4.1.1.131", "BasicStructuredDisplayStorage"),
    ("5.1.4.1.1.200.1", "CTDefinedProcedureProtocolStorage"),
];

fn part_9(rest: &[u8]) -> Option<&'static str> {
    keyword_in(PART_9, rest)
}

const PART_9: &[Row] = &[
    ("5.1.4.1.1.200.2", "CTPerformedProcedureProtocolStorage"),
    ("5.1.4.1.1.200.3", "ProtocolApprovalStorage"),
    ("5.1.4.1.1.200.4", "ProtocolApprovalInformationModelFind"),
    ("5.1.4.1.1.200.5", "ProtocolApprovalInformationModelMove"),
    ("5.1.4.1.1.200.6", "ProtocolApprovalInformationModelGet"),
    ("5.1.4.1.1.200.7", "XADefinedProcedureProtocolStorage"),
    ("5.1.4.1.1.200.8", "XAPerformedProcedureProtocolStorage"),
    ("5.1.4.1.1.481.1", "RTImageStorage"),
    ("5.1.4.1.1.481.2", "RTDoseStorage"),
    ("5.1.4.1.1.481.3", "RTStructureSetStorage"),
    ("5.1.4.1.1.481.4", "RTBeamsTreatmentRecordStorage"),
    ("5.1.4.1.1.481.5", "RTPlanStorage"),
    ("5.1.4.1.1.481.6", "RTBrachyTreatmentRecordStorage"),
    ("5.1.4.1.1.481.7", "RTTreatmentSummaryRecordStorage"),
    ("5.1.4.1.1.481.8", "RTIonPlanStorage"),
    ("5.1.4.1.1.481.9", "RTIonBeamsTreatmentRecordStorage"),
    ("5.1.4.1.1.481.10", "RTPhysicianIntentStorage"),
    ("5.1.4.1.1.481.11", "RTSegmentAnnotationStorage"),
    ("5.1.4.1.1.481.12", "RTRadiationSetStorage"),
    ("5.1.4.1.1.481.13", "CArmPhotonElectronRadiationStorage"),
    ("5.1.4.1.1.481.14", "TomotherapeuticRadiationStorage"),
    ("5.1.4.1.1.481.15", "RoboticArmRadiationStorage"),
    ("5.1.4.1.1.481.16", "RTRadiationRecordSetStorage"),
    ("5.1.4.1.1.481.17", "RTRadiationSalvageRecordStorage"),
];

fn part_10(rest: &[u8]) -> Option<&'static str> {
    keyword_in(PART_10, rest)
}

const PART_10: &[Row] = &[
    ("5.1.4.1.1.481.18", "TomotherapeuticRadiationRecordStorage"),
    (
        "5.1.4.1.1.481.19",
        "CArmPhotonElectronRadiationRecordStorage",
    ),
    ("5.1.4.1.1.481.20", "RoboticRadiationRecordStorage"),
    (
        "5.1.4.1.1.481.21",
        "RTRadiationSetDeliveryInstructionStorage",
    ),
    ("5.1.4.1.1.481.22", "RTTreatmentPreparationStorage"),
    ("5.1.4.1.1.501.1", "DICOSCTImageStorage"),
    (
        "5.1.4.1.1.501.2.1",
        "DICOSDigitalXRayImageStorageForPresentation",
    ),
    (
        "5.1.4.1.1.501.2.2",
        "DICOSDigitalXRayImageStorageForProcessing",
    ),
    ("5.1.4.1.1.501.3", "DICOSThreatDetectionReportStorage"),
    ("5.1.4.1.1.501.4", "DICOS2DAITStorage"),
    ("5.1.4.1.1.501.5", "DICOS3DAITStorage"),
    ("5.1.4.1.1.501.6", "DICOSQuadrupoleResonanceStorage"),
    ("5.1.4.1.1.601.1", "EddyCurrentImageStorage"),
    ("5.1.4.1.1.601.2", "EddyCurrentMultiFrameImageStorage"),
    (
        "5.1.4.1.2.1.1",
        "PatientRootQueryRetrieveInformationModelFind",
    ),
    (
        "5.1.4.1.2.1.2",
        "PatientRootQueryRetrieveInformationModelMove",
    ),
    (
        "5.1.4.1.2.1.3",
        "PatientRootQueryRetrieveInformationModelGet",
    ),
    (
        "5.1.4.1.2.2.1",
        "StudyRootQueryRetrieveInformationModelFind",
    ),
    (
        "5.1.4.1.2.2.2",
        "StudyRootQueryRetrieveInformationModelMove",
    ),
    ("5.1.4.1.2.2.3", "StudyRootQueryRetrieveInformationModelGet"),
    (
        "5.1.4.1.2.3.1",
        "PatientStudyOnlyQueryRetrieveInformationModelFind",
    ),
    (
        "5.1.4.1.2.3.2",
        "PatientStudyOnlyQueryRetrieveInformationModelMove",
    ),
    (
        "5.1.4.1.2.3.3",
        "PatientStudyOnlyQueryRetrieveInformationModelGet",
    ),
    ("5.1.4.1.2.4.2", "CompositeInstanceRootRetrieveMove"),
];

fn part_11(rest: &[u8]) -> Option<&'static str> {
    keyword_in(PART_11, rest)
}

const PART_11: &[Row] = &[
    ("5.1.4.1.2.4.3", "CompositeInstanceRootRetrieveGet"),
    (
        "5.1.4.1.2.5.3",
        "CompositeInstanceRetrieveWithoutBulkDataGet",
    ),
    ("5.1.4.20.1", "DefinedProcedureProtocolInformationModelFind"),
    ("5.1.4.20.2", "DefinedProcedureProtocolInformationModelMove"),
    ("5.1.4.20.3", "DefinedProcedureProtocolInformationModelGet"),
    ("5.1.4.31", "ModalityWorklistInformationModelFind"),
    ("5.1.4.32", "GeneralPurposeWorklistManagementMeta"),
    ("5.1.4.32.1", "GeneralPurposeWorklistInformationModelFind"),
    ("5.1.4.32.2", "GeneralPurposeScheduledProcedureStep"),
    ("5.1.4.32.3", "GeneralPurposePerformedProcedureStep"),
    ("5.1.4.33", "InstanceAvailabilityNotification"),
    ("5.1.4.34.1", "RTBeamsDeliveryInstructionStorageTrial"),
    ("5.1.4.34.2", "RTConventionalMachineVerificationTrial"),
    ("5.1.4.34.3", "RTIonMachineVerificationTrial"),
    ("5.1.4.34.4.1", "UnifiedProcedureStepPushTrial"),
    ("5.1.4.34.4.2", "UnifiedProcedureStepWatchTrial"),
    ("5.1.4.34.4.3", "UnifiedProcedureStepPullTrial"),
    ("5.1.4.34.4.4", "UnifiedProcedureStepEventTrial"),
    ("5.1.4.34.6.1", "UnifiedProcedureStepPush"),
    ("5.1.4.34.6.2", "UnifiedProcedureStepWatch"),
    ("5.1.4.34.6.3", "UnifiedProcedureStepPull"),
    ("5.1.4.34.6.4", "UnifiedProcedureStepEvent"),
    ("5.1.4.34.6.5", "UnifiedProcedureStepQuery"),
    ("5.1.4.34.7", "RTBeamsDeliveryInstructionStorage"),
];

fn part_12(rest: &[u8]) -> Option<&'static str> {
    keyword_in(PART_12, rest)
}

const PART_12: &[Row] = &[
    ("5.1.4.34.8", "RTConventionalMachineVerification"),
    ("5.1.4.34.9", "RTIonMachineVerification"),
    (
        "5.1.4.34.10",
        "RTBrachyApplicationSetupDeliveryInstructionStorage",
    ),
    ("5.1.4.37.1", "GeneralRelevantPatientInformationQuery"),
    ("5.1.4.37.2", "BreastImagingRelevantPatientInformationQuery"),
    ("5.1.4.37.3", "CardiacRelevantPatientInformationQuery"),
    ("5.1.4.38.1", "HangingProtocolStorage"),
    ("5.1.4.38.2", "HangingProtocolInformationModelFind"),
    ("5.1.4.38.3", "HangingProtocolInformationModelMove"),
    ("5.1.4.38.4", "HangingProtocolInformationModelGet"),
    ("5.1.4.39.1", "ColorPaletteStorage"),
    (
        "5.1.4.39.2",
        "ColorPaletteQueryRetrieveInformationModelFind",
    ),
    (
        "5.1.4.39.3",
        "ColorPaletteQueryRetrieveInformationModelMove",
    ),
    ("5.1.4.39.4", "ColorPaletteQueryRetrieveInformationModelGet"),
    ("5.1.4.41", "ProductCharacteristicsQuery"),
    ("5.1.4.42", "SubstanceApprovalQuery"),
    ("5.1.4.43.1", "GenericImplantTemplateStorage"),
    ("5.1.4.43.2", "GenericImplantTemplateInformationModelFind"),
    ("5.1.4.43.3", "GenericImplantTemplateInformationModelMove"),
    ("5.1.4.43.4", "GenericImplantTemplateInformationModelGet"),
    ("5.1.4.44.1", "ImplantAssemblyTemplateStorage"),
    ("5.1.4.44.2", "ImplantAssemblyTemplateInformationModelFind"),
    ("5.1.4.44.3", "ImplantAssemblyTemplateInformationModelMove"),
    ("5.1.4.44.4", "ImplantAssemblyTemplateInformationModelGet"),
];

fn part_13(rest: &[u8]) -> Option<&'static str> {
    keyword_in(PART_13, rest)
}

const PART_13: &[Row] = &[
    ("5.1.4.45.1", "ImplantTemplateGroupStorage"),
    ("5.1.4.45.2", "ImplantTemplateGroupInformationModelFind"),
    ("5.1.4.45.3", "ImplantTemplateGroupInformationModelMove"),
    ("5.1.4.45.4", "ImplantTemplateGroupInformationModelGet"),
    ("10.1", "VideoEndoscopicImageRealTimeCommunication"),
    ("10.2", "VideoPhotographicImageRealTimeCommunication"),
    ("10.3", "AudioWaveformRealTimeCommunication"),
    ("10.4", "RenditionSelectionDocumentRealTimeCommunication"),
];
