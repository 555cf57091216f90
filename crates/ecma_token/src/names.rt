//! The parser's errors that hold nothing, under names of their own.

use crate::error::SyntaxError;
use ecma_fixed::FixedError;

/// The parser's errors that hold nothing, so that they are written as the others are.
impl SyntaxError<'static> {
    pub const Eof: Self = Self::Fixed(FixedError::Eof);

    pub const DeclNotAllowed: Self = Self::Fixed(FixedError::DeclNotAllowed);

    pub const UsingDeclNotAllowed: Self = Self::Fixed(FixedError::UsingDeclNotAllowed);

    pub const UsingDeclNotAllowedForForInLoop: Self = Self::Fixed(
        FixedError::UsingDeclNotAllowedForForInLoop,
    );

    pub const UsingDeclNotEnabled: Self = Self::Fixed(FixedError::UsingDeclNotEnabled);

    pub const InvalidNameInUsingDecl: Self = Self::Fixed(FixedError::InvalidNameInUsingDecl);

    pub const InitRequiredForUsingDecl: Self = Self::Fixed(FixedError::InitRequiredForUsingDecl);

    pub const PrivateNameInInterface: Self = Self::Fixed(FixedError::PrivateNameInInterface);

    pub const InvalidSuperCall: Self = Self::Fixed(FixedError::InvalidSuperCall);

    pub const InvalidSuper: Self = Self::Fixed(FixedError::InvalidSuper);

    pub const InvalidSuperPrivateName: Self = Self::Fixed(FixedError::InvalidSuperPrivateName);

    pub const InvalidNewTarget: Self = Self::Fixed(FixedError::InvalidNewTarget);

    pub const InvalidImport: Self = Self::Fixed(FixedError::InvalidImport);

    pub const ArrowNotAllowed: Self = Self::Fixed(FixedError::ArrowNotAllowed);

    pub const ExportNotAllowed: Self = Self::Fixed(FixedError::ExportNotAllowed);

    pub const GetterSetterCannotBeReadonly: Self = Self::Fixed(
        FixedError::GetterSetterCannotBeReadonly,
    );

    pub const GetterSetterCannotBeOptional: Self = Self::Fixed(
        FixedError::GetterSetterCannotBeOptional,
    );

    pub const GetterParam: Self = Self::Fixed(FixedError::GetterParam);

    pub const SetterParam: Self = Self::Fixed(FixedError::SetterParam);

    pub const TopLevelAwaitInScript: Self = Self::Fixed(FixedError::TopLevelAwaitInScript);

    pub const SetterParamRequired: Self = Self::Fixed(FixedError::SetterParamRequired);

    pub const RestPatInSetter: Self = Self::Fixed(FixedError::RestPatInSetter);

    pub const InvalidIdentInAsync: Self = Self::Fixed(FixedError::InvalidIdentInAsync);

    pub const EvalAndArgumentsInStrict: Self = Self::Fixed(FixedError::EvalAndArgumentsInStrict);

    pub const ArgumentsInClassField: Self = Self::Fixed(FixedError::ArgumentsInClassField);

    pub const IllegalLanguageModeDirective: Self = Self::Fixed(
        FixedError::IllegalLanguageModeDirective,
    );

    pub const Hash: Self = Self::Fixed(FixedError::Hash);

    pub const LineBreakInThrow: Self = Self::Fixed(FixedError::LineBreakInThrow);

    pub const LineBreakBeforeArrow: Self = Self::Fixed(FixedError::LineBreakBeforeArrow);

    pub const ReservedWordInImport: Self = Self::Fixed(FixedError::ReservedWordInImport);

    pub const AssignProperty: Self = Self::Fixed(FixedError::AssignProperty);

    pub const AwaitStar: Self = Self::Fixed(FixedError::AwaitStar);

    pub const ReservedWordInObjShorthandOrPat: Self = Self::Fixed(
        FixedError::ReservedWordInObjShorthandOrPat,
    );

    pub const NullishCoalescingWithLogicalOp: Self = Self::Fixed(
        FixedError::NullishCoalescingWithLogicalOp,
    );

    pub const CommaAfterRestElement: Self = Self::Fixed(FixedError::CommaAfterRestElement);

    pub const NonLastRestParam: Self = Self::Fixed(FixedError::NonLastRestParam);

    pub const SpreadInParenExpr: Self = Self::Fixed(FixedError::SpreadInParenExpr);

    pub const EmptyParenExpr: Self = Self::Fixed(FixedError::EmptyParenExpr);

    pub const InvalidPat: Self = Self::Fixed(FixedError::InvalidPat);

    pub const InvalidExpr: Self = Self::Fixed(FixedError::InvalidExpr);

    pub const NotSimpleAssign: Self = Self::Fixed(FixedError::NotSimpleAssign);

    pub const InvalidAssignTarget: Self = Self::Fixed(FixedError::InvalidAssignTarget);

    pub const ExpectedIdent: Self = Self::Fixed(FixedError::ExpectedIdent);

    pub const ExpectedSemi: Self = Self::Fixed(FixedError::ExpectedSemi);

    pub const AsyncGenerator: Self = Self::Fixed(FixedError::AsyncGenerator);

    pub const NonTopLevelImportExport: Self = Self::Fixed(FixedError::NonTopLevelImportExport);

    pub const ImportExportInScript: Self = Self::Fixed(FixedError::ImportExportInScript);

    pub const ImportMetaInScript: Self = Self::Fixed(FixedError::ImportMetaInScript);

    pub const PatVarWithoutInit: Self = Self::Fixed(FixedError::PatVarWithoutInit);

    pub const WithInStrict: Self = Self::Fixed(FixedError::WithInStrict);

    pub const ReturnNotAllowed: Self = Self::Fixed(FixedError::ReturnNotAllowed);

    pub const TooManyVarInForInHead: Self = Self::Fixed(FixedError::TooManyVarInForInHead);

    pub const VarInitializerInForInHead: Self = Self::Fixed(FixedError::VarInitializerInForInHead);

    pub const LabelledGeneratorOrAsync: Self = Self::Fixed(FixedError::LabelledGeneratorOrAsync);

    pub const LabelledFunctionInStrict: Self = Self::Fixed(FixedError::LabelledFunctionInStrict);

    pub const YieldParamInGen: Self = Self::Fixed(FixedError::YieldParamInGen);

    pub const AwaitParamInAsync: Self = Self::Fixed(FixedError::AwaitParamInAsync);

    pub const AwaitForStmt: Self = Self::Fixed(FixedError::AwaitForStmt);

    pub const AwaitInFunction: Self = Self::Fixed(FixedError::AwaitInFunction);

    pub const UnterminatedJSXContents: Self = Self::Fixed(FixedError::UnterminatedJSXContents);

    pub const EmptyJSXAttr: Self = Self::Fixed(FixedError::EmptyJSXAttr);

    pub const InvalidJSXValue: Self = Self::Fixed(FixedError::InvalidJSXValue);

    pub const JSXExpectedClosingTagForLtGt: Self = Self::Fixed(
        FixedError::JSXExpectedClosingTagForLtGt,
    );

    pub const InvalidLeadingDecorator: Self = Self::Fixed(FixedError::InvalidLeadingDecorator);

    pub const DecoratorOnExport: Self = Self::Fixed(FixedError::DecoratorOnExport);

    pub const TsRequiredAfterOptional: Self = Self::Fixed(FixedError::TsRequiredAfterOptional);

    pub const TsInvalidParamPropPat: Self = Self::Fixed(FixedError::TsInvalidParamPropPat);

    pub const SpaceBetweenHashAndIdent: Self = Self::Fixed(FixedError::SpaceBetweenHashAndIdent);

    pub const AsyncConstructor: Self = Self::Fixed(FixedError::AsyncConstructor);

    pub const PropertyNamedConstructor: Self = Self::Fixed(FixedError::PropertyNamedConstructor);

    pub const PrivateConstructor: Self = Self::Fixed(FixedError::PrivateConstructor);

    pub const ConstructorAccessor: Self = Self::Fixed(FixedError::ConstructorAccessor);

    pub const ReadOnlyMethod: Self = Self::Fixed(FixedError::ReadOnlyMethod);

    pub const GeneratorConstructor: Self = Self::Fixed(FixedError::GeneratorConstructor);

    pub const DuplicateConstructor: Self = Self::Fixed(FixedError::DuplicateConstructor);

    pub const TsBindingPatCannotBeOptional: Self = Self::Fixed(
        FixedError::TsBindingPatCannotBeOptional,
    );

    pub const SuperCallOptional: Self = Self::Fixed(FixedError::SuperCallOptional);

    pub const OptChainCannotFollowConstructorCall: Self = Self::Fixed(
        FixedError::OptChainCannotFollowConstructorCall,
    );

    pub const TaggedTplInOptChain: Self = Self::Fixed(FixedError::TaggedTplInOptChain);

    pub const TrailingCommaInsideImport: Self = Self::Fixed(FixedError::TrailingCommaInsideImport);

    pub const ExportDefaultWithOutFrom: Self = Self::Fixed(FixedError::ExportDefaultWithOutFrom);

    pub const DotsWithoutIdentifier: Self = Self::Fixed(FixedError::DotsWithoutIdentifier);

    pub const ExportBindingIsString: Self = Self::Fixed(FixedError::ExportBindingIsString);

    pub const ConstDeclarationsRequireInitialization: Self = Self::Fixed(
        FixedError::ConstDeclarationsRequireInitialization,
    );

    pub const UnknownRegExpFlags: Self = Self::Fixed(FixedError::UnknownRegExpFlags);

    pub const TSTypeAnnotationAfterAssign: Self = Self::Fixed(
        FixedError::TSTypeAnnotationAfterAssign,
    );

    pub const ReservedTypeAssertion: Self = Self::Fixed(FixedError::ReservedTypeAssertion);

    pub const ReservedArrowTypeParam: Self = Self::Fixed(FixedError::ReservedArrowTypeParam);

    pub const TS1003: Self = Self::Fixed(FixedError::TS1003);

    pub const TS1005: Self = Self::Fixed(FixedError::TS1005);

    pub const TS1009: Self = Self::Fixed(FixedError::TS1009);

    pub const TS1014: Self = Self::Fixed(FixedError::TS1014);

    pub const TS1015: Self = Self::Fixed(FixedError::TS1015);

    pub const TS1031: Self = Self::Fixed(FixedError::TS1031);

    pub const TS1038: Self = Self::Fixed(FixedError::TS1038);

    pub const TS1042: Self = Self::Fixed(FixedError::TS1042);

    pub const TS1047: Self = Self::Fixed(FixedError::TS1047);

    pub const TS1048: Self = Self::Fixed(FixedError::TS1048);

    pub const TS1056: Self = Self::Fixed(FixedError::TS1056);

    pub const TS1092: Self = Self::Fixed(FixedError::TS1092);

    pub const TS1093: Self = Self::Fixed(FixedError::TS1093);

    pub const TS1096: Self = Self::Fixed(FixedError::TS1096);

    pub const TS1098: Self = Self::Fixed(FixedError::TS1098);

    pub const TS1100: Self = Self::Fixed(FixedError::TS1100);

    pub const TS1102: Self = Self::Fixed(FixedError::TS1102);

    pub const TS1105: Self = Self::Fixed(FixedError::TS1105);

    pub const TS1106: Self = Self::Fixed(FixedError::TS1106);

    pub const TS1107: Self = Self::Fixed(FixedError::TS1107);

    pub const TS1109: Self = Self::Fixed(FixedError::TS1109);

    pub const TS1110: Self = Self::Fixed(FixedError::TS1110);

    pub const TS1114: Self = Self::Fixed(FixedError::TS1114);

    pub const TS1115: Self = Self::Fixed(FixedError::TS1115);

    pub const TS1116: Self = Self::Fixed(FixedError::TS1116);

    pub const TS1123: Self = Self::Fixed(FixedError::TS1123);

    pub const TS1141: Self = Self::Fixed(FixedError::TS1141);

    pub const TS1162: Self = Self::Fixed(FixedError::TS1162);

    pub const TS1164: Self = Self::Fixed(FixedError::TS1164);

    pub const TS1171: Self = Self::Fixed(FixedError::TS1171);

    pub const TS1172: Self = Self::Fixed(FixedError::TS1172);

    pub const TS1173: Self = Self::Fixed(FixedError::TS1173);

    pub const TS1174: Self = Self::Fixed(FixedError::TS1174);

    pub const TS1175: Self = Self::Fixed(FixedError::TS1175);

    pub const TS1183: Self = Self::Fixed(FixedError::TS1183);

    pub const TS1184: Self = Self::Fixed(FixedError::TS1184);

    pub const TS1196: Self = Self::Fixed(FixedError::TS1196);

    pub const TS1242: Self = Self::Fixed(FixedError::TS1242);

    pub const TS1244: Self = Self::Fixed(FixedError::TS1244);

    pub const TS1245: Self = Self::Fixed(FixedError::TS1245);

    pub const TS1267: Self = Self::Fixed(FixedError::TS1267);

    pub const TS2206: Self = Self::Fixed(FixedError::TS2206);

    pub const TS2207: Self = Self::Fixed(FixedError::TS2207);

    pub const TS2369: Self = Self::Fixed(FixedError::TS2369);

    pub const TS2371: Self = Self::Fixed(FixedError::TS2371);

    pub const TS2406: Self = Self::Fixed(FixedError::TS2406);

    pub const TS2410: Self = Self::Fixed(FixedError::TS2410);

    pub const TS2414: Self = Self::Fixed(FixedError::TS2414);

    pub const TS2427: Self = Self::Fixed(FixedError::TS2427);

    pub const TS2452: Self = Self::Fixed(FixedError::TS2452);

    pub const TS2483: Self = Self::Fixed(FixedError::TS2483);

    pub const TS2491: Self = Self::Fixed(FixedError::TS2491);

    pub const TS2499: Self = Self::Fixed(FixedError::TS2499);

    pub const TS2703: Self = Self::Fixed(FixedError::TS2703);

    pub const TS4112: Self = Self::Fixed(FixedError::TS4112);

    pub const TS8038: Self = Self::Fixed(FixedError::TS8038);

    pub const TS18010: Self = Self::Fixed(FixedError::TS18010);
}
