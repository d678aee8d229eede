//! The rows. Each function does nothing: its contract is that the definitions give them.
ghost use Rattle.hwdb_laws.specs.AnswerRows;
ghost use Rattle.hwdb_laws.specs.ChangeRows;
ghost use Rattle.hwdb_laws.specs.CheckRows;
ghost use Rattle.hwdb_laws.specs.ColourRows;
ghost use Rattle.hwdb_laws.specs.CommandRows;
ghost use Rattle.hwdb_laws.specs.CompareRows;
ghost use Rattle.hwdb_laws.specs.DeviceRows;
ghost use Rattle.hwdb_laws.specs.ErrorRows;
ghost use Rattle.hwdb_laws.specs.FormRows;
ghost use Rattle.hwdb_laws.specs.KeyRows;
ghost use Rattle.hwdb_laws.specs.LikelyRows;
ghost use Rattle.hwdb_laws.specs.OverTextRows;
ghost use Rattle.hwdb_laws.specs.OwnRulesRows;
ghost use Rattle.hwdb_laws.specs.PlaceRows;
ghost use Rattle.hwdb_laws.specs.PlanRows;
ghost use Rattle.hwdb_laws.specs.SaidRows;
ghost use Rattle.hwdb_laws.specs.StatusRows;
ghost use Rattle.hwdb_laws.specs.SysfsRows;
ghost use Rattle.hwdb_laws.specs.TaskRows;
ghost use Rattle.hwdb_laws.specs.WantedRows;
ghost use Rattle.hwdb_laws.specs.WordRows;

/// What a file system answers of sysfs.
pub fn sysfs_rows()
    ensures nowhere { SysfsRows.NowhereRows }
    ensures leading { SysfsRows.LeadRows }
    ensures listed { SysfsRows.ListedRows }
    ensures attributes { SysfsRows.AttributeRows }
    ensures paths { SysfsRows.PathRows }
    ensures untold { SysfsRows.UntoldRows }
{}

/// The forms of strings that udev asks.
pub fn form_rows()
    ensures usb { FormRows.UsbRows }
    ensures mouse { FormRows.MouseRows }
    ensures bus { FormRows.BusRows }
    ensures evdev { FormRows.EvdevRows }
    ensures name { FormRows.NameRows }
    ensures named_machine { FormRows.NameMachineRows }
    ensures machine { FormRows.MachineRows }
    ensures dmi { FormRows.DmiRows }
    ensures sensor { FormRows.SensorRows }
    ensures sensor_machine { FormRows.SensorMachineRows }
    ensures battery { FormRows.PartRows }
    ensures camera { FormRows.CameraRows }
    ensures tablet { FormRows.TabletRows }
    ensures bluetooth { FormRows.BluetoothRows }
    ensures acpi { FormRows.AcpiRows }
    ensures pci { FormRows.PciRows }
    ensures firewire { FormRows.FireWireRows }
    ensures oui { FormRows.OuiRows }
    ensures screen { FormRows.ScreenRows }
    ensures single { FormRows.SingleRows }
{}

/// The forms of strings that udev likely asks.
pub fn likely_rows()
    ensures machine { LikelyRows.MachineRows }
    ensures dmi { LikelyRows.DmiRows }
    ensures name { LikelyRows.NameRows }
    ensures name_machine { LikelyRows.NameMachineRows }
    ensures place { LikelyRows.PlaceRows }
    ensures place_machine { LikelyRows.PlaceMachineRows }
    ensures bus { LikelyRows.BusRows }
    ensures mouse { LikelyRows.MouseRows }
    ensures camera { LikelyRows.CameraRows }
    ensures touchpad { LikelyRows.TouchpadRows }
    ensures joystick { LikelyRows.JoystickRows }
    ensures sensor { LikelyRows.SensorRows }
    ensures sensor_machine { LikelyRows.SensorMachineRows }
    ensures battery { LikelyRows.BatteryRows }
    ensures battery_machine { LikelyRows.BatteryMachineRows }
    ensures tablet { LikelyRows.TabletRows }
{}

/// What `check` says.
pub fn check_rows()
    ensures told { CheckRows.ToldRows }
    ensures elsewhere { CheckRows.ElsewhereRows }
    ensures unread { CheckRows.UnreadRows }
    ensures unpaired { CheckRows.UnpairedRows }
    ensures hints { CheckRows.HintRows }
    ensures repeated { CheckRows.RepeatedRows }
    ensures replaced { CheckRows.ReplacedRows }
    ensures warned { CheckRows.WarnedRows }
    ensures reports { CheckRows.ReportRows }
    ensures as_json { CheckRows.JsonRows }
    ensures for_github { CheckRows.GithubRows }
    ensures as_sarif { CheckRows.SarifRows }
    ensures formats { CheckRows.FormatRows }
    ensures order { CheckRows.OrderRows }
    ensures fixes { CheckRows.FixRows }
    ensures fixed { CheckRows.FixedRows }
    ensures faults { CheckRows.FaultRows }
    ensures tally { CheckRows.TallyRows }
{}

/// What `diff` says.
pub fn change_rows()
    ensures place { ChangeRows.PlaceRows }
    ensures joined { ChangeRows.JoinedRows }
    ensures differences { ChangeRows.DifferenceRows }
    ensures lines { ChangeRows.LineRows }
    ensures device { ChangeRows.DeviceRows }
    ensures tables { ChangeRows.TableRows }
    ensures files { ChangeRows.FileRows }
    ensures reviewed { ChangeRows.ReviewedFileRows }
{}

/// What `test` says, and what `test --record` prints.
pub fn wanted_rows()
    ensures held { WantedRows.HeldRows }
    ensures status { WantedRows.StatusRows }
    ensures text { WantedRows.TestRows }
    ensures records { WantedRows.RecordRows }
    ensures said { WantedRows.SaidRows }
    ensures unsaid { WantedRows.UnsaidRows }
    ensures why { WantedRows.WhyRows }
{}

/// What `verify` says.
pub fn verify_rows()
    ensures { SaidRows.SummaryRows }
{}

/// What `update --verbose` says.
pub fn update_rows()
    ensures progress { SaidRows.ProgressRows }
    ensures faults { SaidRows.FaultRows }
    ensures deep { SaidRows.DeepRows }
    ensures hiding { SaidRows.HidingRows }
{}

/// What `explain` says.
pub fn explain_rows()
    ensures { SaidRows.ExplainRows }
{}

/// What `near` says.
pub fn near_rows()
    ensures text { SaidRows.NearRows }
    ensures as_json { SaidRows.NearJsonRows }
{}

/// What `status` says, and `update` without text files.
pub fn status_rows()
    ensures words { StatusRows.WordRows }
    ensures commands { StatusRows.CommandRows }
    ensures asked { StatusRows.AskedRows }
    ensures files { StatusRows.FileRows }
    ensures bare { StatusRows.BareRows }
    ensures remedy { StatusRows.RemedyRows }
    ensures bare_remedy { StatusRows.BareRemedyRows }
    ensures text { StatusRows.TextRows }
    ensures as_json { StatusRows.JsonRows }
    ensures status { StatusRows.StatusRows }
    ensures loss { StatusRows.LossRows }
{}

/// Which commands take `--text`, and which of their words don't fit it.
pub fn over_text_rows()
    ensures verify { OverTextRows.VerifyRows }
    ensures dump { OverTextRows.DumpRows }
    ensures test { OverTextRows.TestRows }
    ensures near { OverTextRows.NearRows }
    ensures device { OverTextRows.DeviceRows }
    ensures taken { OverTextRows.TakenRows }
{}

/// What is said of errors, and what they are to the program.
pub fn error_rows()
    ensures words { ErrorRows.WordRows }
    ensures paths { ErrorRows.PathRows }
    ensures lines { ErrorRows.LineRows }
    ensures own { ErrorRows.OwnRows }
    ensures others { ErrorRows.OtherRows }
    ensures numbers { ErrorRows.NumberRows }
    ensures verdicts { ErrorRows.VerdictRows }
    ensures offsets { ErrorRows.OffsetRows }
    ensures passed { ErrorRows.PassedRows }
    ensures compiled { ErrorRows.CompiledRows }
    ensures stops { ErrorRows.StopRows }
    ensures own_stops { ErrorRows.OwnStopRows }
    ensures failures { ErrorRows.FailureRows }
{}

/// What `diff` prints of two databases.
pub fn compare_rows()
    ensures changes { CompareRows.ChangeRows }
    ensures first_device { CompareRows.FirstDeviceRows }
    ensures second_device { CompareRows.SecondDeviceRows }
    ensures last_device { CompareRows.LastDeviceRows }
    ensures text { CompareRows.TextRows }
    ensures by_record { CompareRows.RecordRows }
    ensures renamed { CompareRows.RenamedRows }
    ensures devices { CompareRows.DeviceTextRows }
    ensures status { CompareRows.StatusRows }
    ensures same { CompareRows.SameRows }
    ensures unmet { CompareRows.UnmetRows }
    ensures which { CompareRows.WhichRows }
    ensures chosen { CompareRows.ChosenRows }
    ensures pass { CompareRows.PassRows }
    ensures given { CompareRows.GivenRows }
    ensures named { CompareRows.NamedRows }
    ensures stale { CompareRows.StaleRows }
    ensures amount { CompareRows.AmountRows }
    ensures patterns { CompareRows.PatternRows }
{}

/// Which bytes of a text have which colour.
pub fn colour_rows()
    ensures properties { ColourRows.PropertyRows }
    ensures origins { ColourRows.OriginRows }
    ensures hits { ColourRows.HitRows }
    ensures reports { ColourRows.ReportRows }
    ensures changes { ColourRows.ChangeRows }
    ensures devices { ColourRows.DeviceRows }
    ensures records { ColourRows.RecordRows }
    ensures without { ColourRows.WithoutRows }
{}

/// What is read of the command line.
pub fn word_rows()
    ensures update { WordRows.UpdateRows }
    ensures bare_update { WordRows.BareUpdateRows }
    ensures query { WordRows.QueryRows }
    ensures explain { WordRows.ExplainRows }
    ensures ask { WordRows.AskRows }
    ensures list { WordRows.ListRows }
    ensures near { WordRows.NearRows }
    ensures device { WordRows.DeviceRows }
    ensures bare_device { WordRows.BareDeviceRows }
    ensures check { WordRows.CheckRows }
    ensures test { WordRows.TestRows }
    ensures diff { WordRows.DiffRows }
    ensures review { WordRows.ReviewRows }
    ensures verify { WordRows.VerifyRows }
    ensures dump { WordRows.DumpRows }
    ensures status { WordRows.StatusRows }
    ensures keys { WordRows.KeysRows }
    ensures scan { WordRows.ScanRows }
    ensures numbers { WordRows.NumberRows }
    ensures before { WordRows.BeforeRows }
    ensures wrong { WordRows.WrongRows }
    ensures right { WordRows.RightRows }
{}

/// What `device` prints.
pub fn device_rows()
    ensures meant { DeviceRows.MeantRows }
    ensures fitting { DeviceRows.FittingRows }
    ensures places { DeviceRows.PlacesRows }
    ensures place { DeviceRows.PlaceRows }
    ensures ids { DeviceRows.IdRows }
    ensures list { DeviceRows.ListRows }
    ensures nothing { DeviceRows.NothingRows }
    ensures names { DeviceRows.NameRows }
    ensures text { DeviceRows.TextRows }
    ensures files { DeviceRows.FileRows }
{}

/// What tasks read, and what `explain --text` says besides.
pub fn task_rows()
    ensures plain { TaskRows.PlainRows }
    ensures dash { TaskRows.DashRows }
    ensures other { TaskRows.OtherRows }
    ensures diff { TaskRows.DiffRows }
    ensures scan { TaskRows.ScanRows }
    ensures named { TaskRows.NamedRows }
    ensures status { TaskRows.StatusRows }
    ensures jobs { TaskRows.JobRows }
    ensures replaced { TaskRows.ReplacedRows }
    ensures read { TaskRows.ReadRows }
    ensures besides { TaskRows.BesidesRows }
    ensures told { TaskRows.ToldRows }
    ensures over { TaskRows.OverRows }
    ensures taken { TaskRows.TakenRows }
    ensures commands { CommandRows.CommandRows }
{}

/// What a database, or text files, answer.
pub fn answer_rows()
    ensures nodes { AnswerRows.NodeRows }
    ensures database { AnswerRows.DatabaseRows }
    ensures files { AnswerRows.FileRows }
    ensures raw { AnswerRows.RawRows }
    ensures names { AnswerRows.NameRows }
    ensures positions { AnswerRows.PositionRows }
    ensures hits { AnswerRows.HitRows }
    ensures list { AnswerRows.ListRows }
    ensures file_list { AnswerRows.FileListRows }
    ensures strings { AnswerRows.StringRows }
    ensures dump { AnswerRows.DumpRows }
    ensures entries { AnswerRows.EntryRows }
    ensures said { AnswerRows.SaidRows }
    ensures unsaid { AnswerRows.UnsaidRows }
    ensures patterns { AnswerRows.PatternRows }
    ensures limit { AnswerRows.LimitRows }
    ensures near { AnswerRows.NearRows }
    ensures lines { AnswerRows.LineRows }
    ensures lone { AnswerRows.LoneRows }
{}

/// Where files are, which of them count, and what calls of a store leave.
pub fn place_rows()
    ensures asked { PlaceRows.AskedRows }
    ensures hidden { PlaceRows.HiddenRows }
    ensures there { PlaceRows.ThereRows }
    ensures folders { PlaceRows.FolderRows }
    ensures ignored { PlaceRows.IgnoredRows }
    ensures over { PlaceRows.OverRows }
    ensures dash { PlaceRows.DashRows }
    ensures twice { PlaceRows.TwiceRows }
    ensures lines { PlaceRows.LineRows }
    ensures without { PlaceRows.WithoutRows }
    ensures status { PlaceRows.StatusRows }
    ensures faults { PlaceRows.FaultRows }
    ensures listing { PlaceRows.ListingRows }
    ensures parts { PlaceRows.PartRows }
    ensures blocks { PlaceRows.BlockRows }
    ensures update { PlaceRows.UpdateRows }
    ensures loose { PlaceRows.LooseRows }
    ensures outcome { PlaceRows.OutcomeRows }
{}

/// Which plans words ask for, and the status of an error.
pub fn plan_rows()
    ensures query { PlanRows.QueryRows }
    ensures list { PlanRows.ListRows }
    ensures near { PlanRows.NearRows }
    ensures device { PlanRows.DeviceRows }
    ensures check { PlanRows.CheckRows }
    ensures baseline { PlanRows.BaselineRows }
    ensures named { PlanRows.NamedRows }
    ensures recorded { PlanRows.RecordRows }
    ensures diff { PlanRows.DiffRows }
    ensures fresh { PlanRows.FreshRows }
    ensures keys { PlanRows.KeysRows }
    ensures scan { PlanRows.ScanRows }
    ensures none { PlanRows.NoneRows }
    ensures text { PlanRows.TextRows }
    ensures misuse { PlanRows.MisuseRows }
    ensures besides { PlanRows.BesidesRows }
    ensures after { PlanRows.AfterRows }
    ensures update { PlanRows.UpdateRows }
    ensures no_update { PlanRows.NoUpdateRows }
    ensures status { PlanRows.StatusRows }
    ensures input { PlanRows.InputRows }
    ensures sysfs { PlanRows.SysfsRows }
{}

/// Which rules files `check --rules` reads, and which words it takes.
pub fn own_rules_rows()
    ensures folders { OwnRulesRows.FolderRows }
    ensures names { OwnRulesRows.NameRows }
    ensures fit { OwnRulesRows.FitRows }
    ensures words { OwnRulesRows.WordRows }
    ensures read { OwnRulesRows.ReadRows }
{}

/// Keys with their codes, and which of them words ask for.
pub fn key_rows()
    ensures known { KeyRows.CodeRows }
    ensures parts { KeyRows.PartRows }
    ensures others { KeyRows.OtherRows }
    ensures several { KeyRows.SeveralRows }
    ensures all { KeyRows.AllRows }
    ensures as_json { KeyRows.JsonRows }
    ensures status { KeyRows.StatusRows }
{}
