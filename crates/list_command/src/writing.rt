//! Writes studies with their series and files: as lines of tab-separated fields, or as one JSON
//! object.
use crate::listing::ListOptions;
use crate::order::{modalities_of, order_of_instances, order_of_series, order_of_studies};
use crate::studies::{ByUid, Instance, Series, Study};
use crate::texts::Texts;
use inspection::{JsonPath, OutputForm, PathText};
use std::alloc::Allocator;
use std::io::{self, Write};

/// Writes studies, series and files. In JSON the objects of studies and series are closed after
/// what they contain.
#[derive(Drop)]
pub(crate) struct Writer<'a, A: Allocator + Copy, O: Write> {
    pub alloc: A,
    pub options: ListOptions<'a>,
    pub out: &'a mut O,
}

impl<A: Allocator + Copy, O: Write> Writer<'_, A, O> {
    /// Writes a text that only JSON has.
    fn punctuate(&mut self, text: &str) -> io::Result<()> {
        match self.options.form {
            OutputForm::Lines => Ok(()),
            OutputForm::Json => write!(self.out, "{text}"),
        }
    }

    /// Writes the comma before each element of a JSON array except the first.
    fn separate(&mut self, is_first: bool) -> io::Result<()> {
        self.punctuate(if is_first { "" } else { "," })
    }

    /// Writes a study. Its line has date, Patient ID, patient's name, modalities, number of series,
    /// number of files, UID, further columns.
    fn study(&mut self, uid: &[u8], study: &Study<A>, modalities: &[&[u8]]) -> io::Result<()> {
        let (options, repertoire) = (self.options, study.repertoire);
        let (date, uid) = (options.ascii(study.date.as_slice()), options.ascii(uid));
        let id = options.text(study.patient_id.as_slice(), repertoire);
        let name = options.text(study.patient_name.as_slice(), repertoire);
        let (texts, form) = (modalities, options.form);
        let modalities = Texts { texts, form };
        let (series, images) = (study.series.len(), study.images());
        let columns = options.column_texts(study.columns.as_slice(), repertoire);
        if form == OutputForm::Lines {
            return writeln!(
                self.out,
                "{date}\t{id}\t{name}\t{modalities}\t{series}\t{images}\t{uid}{columns}"
            );
        }
        write!(
            self.out,
            "{{\"study\":{uid},\"date\":{date},\"patient_id\":{id},\"patient_name\":{name},"
        )?;
        write!(
            self.out,
            "\"modalities\":{modalities},\"series_count\":{series},\"image_count\":{images}"
        )?;
        if study.has_several_patients {
            write!(self.out, ",\"several_patients\":true")?;
        }
        write!(self.out, "{columns}")
    }

    /// Writes a series. Its line has number, modality, description, number of files, UID, further
    /// columns.
    fn series(&mut self, uid: &[u8], series: &Series<A>) -> io::Result<()> {
        let options = self.options;
        let (number, uid) = (options.ascii(series.number.as_slice()), options.ascii(uid));
        let modality = options.ascii(series.modality.as_slice());
        let description = options.text(series.description.as_slice(), series.repertoire);
        let columns = options.column_texts(series.columns.as_slice(), series.repertoire);
        let images = series.images;
        if options.form == OutputForm::Lines {
            return writeln!(
                self.out,
                "  {number}\t{modality}\t{description}\t{images}\t{uid}{columns}"
            );
        }
        write!(
            self.out,
            "{{\"series\":{uid},\"number\":{number},\"modality\":{modality},"
        )?;
        write!(
            self.out,
            "\"description\":{description},\"image_count\":{images}{columns}"
        )
    }

    /// Writes a file: its line has number, SOP Instance UID, path, further columns.
    fn instance(&mut self, instance: &Instance<A>) -> io::Result<()> {
        let options = self.options;
        let number = options.ascii(instance.number.as_slice());
        let uid = options.ascii(instance.uid.as_slice());
        let columns = options.column_texts(instance.columns.as_slice(), instance.repertoire);
        let (path, unicode) = (instance.path.as_str(), options.unicode);
        if options.form == OutputForm::Lines {
            let path = PathText { path, unicode };
            return writeln!(self.out, "    {number}\t{uid}\t{path}{columns}");
        }
        let path = JsonPath(path);
        write!(
            self.out,
            "{{\"instance\":{uid},\"number\":{number},\"file\":{path}{columns}}}"
        )
    }

    /// Writes the files of a series, if files are listed.
    fn instances(&mut self, series: &Series<A>) -> io::Result<()> {
        if !self.options.instances {
            return Ok(());
        }
        let instances = series.instances.as_slice();
        let mut is_first = true;
        self.punctuate(",\"instances\":[")?;
        for index in order_of_instances(self.alloc, instances)? {
            if let Some(instance) = instances.get(index) {
                self.separate(is_first)?;
                self.instance(instance)?;
                is_first = false;
            }
        }
        self.punctuate("]")
    }

    /// Writes the series of a study, each with its files, if series are listed.
    fn all_series(&mut self, study: &Study<A>) -> io::Result<()> {
        if !self.options.has_series() {
            return Ok(());
        }
        let mut is_first = true;
        self.punctuate(",\"series\":[")?;
        for index in order_of_series(self.alloc, &study.series)? {
            if let Some((uid, series)) = study.series.get_index(index) {
                self.separate(is_first)?;
                self.series(uid.as_slice(), series)?;
                self.instances(series)?;
                self.punctuate("}")?;
                is_first = false;
            }
        }
        self.punctuate("]")
    }

    /// Writes a line for each study, followed by those of its series and files if these are listed;
    /// or the JSON object with the members `studies`, an array, and `left_out`, the number of files
    /// that were left out.
    pub fn studies(&mut self, studies: &ByUid<Study<A>, A>, omitted: u64) -> io::Result<()> {
        let mut is_first = true;
        self.punctuate("{\"studies\":[")?;
        for index in order_of_studies(self.alloc, studies)? {
            if let Some((uid, study)) = studies.get_index(index) {
                let modalities = modalities_of(self.alloc, study)?;
                self.separate(is_first)?;
                self.study(uid.as_slice(), study, modalities.as_slice())?;
                self.all_series(study)?;
                self.punctuate("}")?;
                is_first = false;
            }
        }
        match self.options.form {
            OutputForm::Lines => Ok(()),
            OutputForm::Json => writeln!(self.out, "],\"left_out\":{omitted}}}"),
        }
    }
}
