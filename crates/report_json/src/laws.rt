//! What the definitions rest on, as functions that do no work: their contracts hold for all values.

ghost use Rattle.std.specs.Prelude.{◌≡◌, Option, Some};
ghost use Rattle.serde_json.specs.Data.{Data};
ghost use Rattle.dict_json.specs.Reading.{reading};
ghost use Rattle.report_json.specs.JsonFaults.{IsJsonCause};
ghost use Rattle.report_json.specs.JsonLines.{json_text};
ghost use Rattle.report_json.specs.JsonReports.{IsJsonReport, JsonReportView, report_value};
ghost use Rattle.report_json.specs.ReadOutcomes.{IsReadOutcome, ReadOutcome};
ghost use Rattle.report_json.specs.declared.faults.JsonFault.{JsonFault};
ghost use Rattle.report_json.specs.declared.faults.JsonFault.TheVariants.{Memory};

/// Of two reports with one value each is the other.
pub fn values_differ()
    ensures { (a b : JsonReportView) → IsJsonReport a → IsJsonReport b
        → report_value a ≡ report_value b → a ≡ b }
{}

/// The text of a report has a reading, the report's value. So what is read of it is that report and no other, and
/// nothing but memory keeps it from being read.
pub fn text_is_read()
    ensures value { (report : JsonReportView) → IsJsonReport report
        → reading (json_text report) ≡ Some (report_value report) }
    ensures same { (report back : JsonReportView) → IsJsonReport report → IsJsonReport back
        → reading (json_text report) ≡ Some (report_value back) → back ≡ report }
    ensures memory { (report : JsonReportView) (fault : JsonFault) → IsJsonReport report
        → IsJsonCause (reading (json_text report)) fault → fault ≡ Memory }
{}

/// Bytes come to exactly one of these: a report, no value, or a value of no report.
pub fn read_outcomes()
    ensures some { (value : Option Data) → (outcome : ReadOutcome) × IsReadOutcome value outcome }
    ensures one { (value : Option Data) (a b : ReadOutcome) → IsReadOutcome value a
        → IsReadOutcome value b → a ≡ b }
{}
